// Packed flash: a flash part whose versions lie as 81-bit records in the caller's bytes, without gaps.
ghost use Rattle.std.specs.Prelude.{◌≡◌, ◌+◌, ◌*◌, ◌^◌, ◌<◌, ◌≤◌, [], length};
ghost use Rattle.bits.specs.Fields.{Wrote};
ghost use Rattle.bits.specs.Signed.{twos};
ghost use Rattle.parts.specs.Packed.{room, removed_bit, value_bits, record_number, value_of, version_at, versions_in, Packs, Appends};
ghost use Rattle.version.specs.Lists.{flash_answer, flash_after};
ghost use Rattle.version.specs.Order.{Kept};

use crate::rows::{Rows, admitted, first_in};
use bits::Field;
use std::mem;
use version::{Flash, Kind, NotTaken, Part, Place, TakingPart, Version};

// ---- one record

const RECORD_BITS: usize = 81;

// Its fields, one behind the other.
const POINT: Field = Field { at: 0, width: 16 };

const NUMBER: Field = Field { at: 16, width: 32 };

const REMOVED: Field = Field { at: 48, width: 1 };

const VALUE: Field = Field { at: 49, width: 32 };

// The removed bit: 1 if the point was removed.
fn removed_bit(value: Option<i32>) -> u64
    ensures value { result ≡ removed_bit value }
    ensures bound { result < 2 }
{
    u64::from(value.is_none())
}

// The value, or 0 if the point was removed; its bits and the removed bit give the value back.
fn value_or_zero(value: Option<i32>) -> i32
    ensures bits { twos 32 result ≡ value_bits value }
    ensures back { value_of (removed_bit value) (value_bits value) ≡ value }
{
    value.unwrap_or(0)
}

// Writes the record of a version from a bit place on.
fn write_record(bytes: &mut [u8], place: usize, version: Version)
    requires within { place + 81 ≤ 8 * length bytes.old }
    requires small { place + 81 < 2 ^ 32 }
    ensures wrote { Wrote bytes.old bytes.new place 81 (record_number version) }
    ensures says { version_at bytes.new place ≡ version }
{
    POINT.write(bytes, place, u64::from(version.point));
    NUMBER.write(bytes, place, u64::from(version.number));
    REMOVED.write(bytes, place, removed_bit(version.value));
    VALUE.write_signed(bytes, place, value_or_zero(version.value));
}

// The version whose record begins at a bit place.
#[tactic(auto, using(crate::proofs::Records::version_is))]
fn read_record(bytes: &[u8], place: usize) -> Version
    requires within { place + 81 ≤ 8 * length bytes.now }
    requires small { place + 81 < 2 ^ 32 }
    ensures { result ≡ version_at bytes.now place }
{
    let point = POINT.read(bytes, place) as u16;
    let number = NUMBER.read(bytes, place) as u32;
    let value = if REMOVED.read(bytes, place) == 1 {
        None
    } else {
        Some(VALUE.read_signed(bytes, place))
    };
    Version {
        point,
        number,
        value,
    }
}

// ---- the part

// Records in the caller's bytes, where a `Vec` would allocate: the first `used` of them are the part's versions, and the
// bits behind are of no account.
#[derive(Drop)]
pub struct PackedFlash<'a> {
    bytes: &'a mut [u8],
    used: usize,
    limit: usize,
    ghost roomy: { limit ≡ room (length bytes.now) },
    ghost counted: { length (versions_in bytes.now used) ≡ used },
    ghost kept: { Kept (versions_in bytes.now used) limit },
    ghost exact: { Packs bytes.now (versions_in bytes.now used) },
}

impl<'a> PackedFlash<'a> {
    // An empty part in the bytes, which are left as they are.
    pub fn new(bytes: &'a mut [u8]) -> PackedFlash<'a>
        ensures empty { versions_in result.bytes.now result.used ≡ [] }
        ensures limit { result.limit ≡ room (length bytes.old) }
        ensures bytes { result.bytes.now ≡ bytes.old }
    {
        // No more bytes are counted than the largest part fills, so that the product stays small.
        let limit = 8 * bytes.len().min(Flash::MOST * RECORD_BITS / 8) / RECORD_BITS;
        PackedFlash {
            bytes,
            used: 0,
            limit,
        }
    }

    // The bytes, as a flash driver would write them out.
    pub fn bytes(&self) -> &[u8]
        ensures whole { result.now ≡ self.now.bytes.now }
        ensures exact { Packs result.now (versions_in self.now.bytes.now self.now.used) }
    {
        &*self.bytes
    }
}

impl Rows for PackedFlash<'_> {
    ghost list = { λ p. versions_in p.bytes.now p.used };

    ghost ordered = { λ p. p.kept.ordered };

    fn len(&self) -> usize {
        self.used
    }

    #[tactic(auto, using(crate::proofs::Records::version_got, crate::proofs::Records::none_got))]
    fn get(&self, index: usize) -> Option<Version> {
        if index < self.used {
            Some(read_record(self.bytes, RECORD_BITS * index))
        } else {
            None
        }
    }
}

impl Part for PackedFlash<'_> {
    ghost versions = { λ p. versions_in p.bytes.now p.used };

    ghost most = { λ p. p.limit };

    ghost kept = { λ p. p.kept };

    fn count(&self) -> usize {
        self.len()
    }

    fn limit(&self) -> usize {
        self.limit
    }

    fn first_from(&self, place: Place) -> Option<Version> {
        first_in(self, place)
    }

    fn clear(&mut self) {
        self.used = 0;
    }
}

impl TakingPart<Flash> for PackedFlash<'_> {
    // What every flash part promises, and `bits`: of the bytes it changes those of the new
    // record alone, and none where it does not take the version.
    fn take(&mut self, version: Version) -> Result<(), NotTaken>
        ensures answer { result ≡ flash_answer (versions_in self.old.bytes.now self.old.used) self.old.limit version }
        ensures list { versions_in self.new.bytes.now self.new.used ≡ flash_after (versions_in self.old.bytes.now self.old.used) self.old.limit version }
        ensures same { self.new.limit ≡ self.old.limit }
        ensures bits { Appends self.old.bytes.now self.new.bytes.now self.old.used version result }
    {
        let used = self.used;
        let limit = self.limit;
        admitted::<Flash, _>(self, limit, version)?;
        // The bytes leave the part for the write, and come back with the new record.
        let bytes = mem::take(&mut self.bytes);
        write_record(bytes, RECORD_BITS * used, version);
        self.bytes = bytes;
        self.used = used + 1;
        Ok(())
    }
}
