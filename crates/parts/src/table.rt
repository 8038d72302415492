// A sorted table of versions in the caller's memory, as a memory part and as a flash part.
ghost use Rattle.std.specs.Prelude.{◌≡◌, ◌+◌, ◌<◌, ◌≤◌, min, [], length, take};
ghost use Rattle.std.specs.List.{insert};
ghost use Rattle.version.specs.Order.{Kept};

use crate::rows::{Rows, Seats, admitted, first_in};
use std::marker::PhantomData;
use version::{Flash, Kind, Memory, NotTaken, Part, Place, TakingPart, Version};

// Lent slots, of which the first `used` hold versions: a `Vec` would allocate.
#[derive(Drop)]
struct Slots<'a> {
    slots: &'a mut [Version],
    used: usize,
}

#[derive(Drop)]
pub struct SortedTable<'a, K> {
    kind: PhantomData<K>,
    rows: Slots<'a>,
    ghost within: { rows.used ≤ length rows.slots.now },
    ghost kept: { Kept (take rows.used rows.slots.now) (length rows.slots.now) },
}

pub type MemoryTable<'a> = SortedTable<'a, Memory>;

pub type FlashTable<'a> = SortedTable<'a, Flash>;

impl Slots<'_> {
    // Puts a version before that at `at`, or behind the last; each later one moves up once.
    fn insert(&mut self, at: usize, version: Version)
        requires room { self.old.used < length self.old.slots.now }
        requires within { at ≤ self.old.used }
        ensures used { self.new.used ≡ self.old.used + 1 }
        ensures long { length self.new.slots.now ≡ length self.old.slots.now }
        ensures list { take self.new.used self.new.slots.now ≡ insert (take self.old.used self.old.slots.now) at version }
    {
        self.slots.copy_within(at..self.used, at + 1);
        self.slots[at] = version;
        self.used += 1;
    }
}

impl<'a, K: Kind> SortedTable<'a, K> {
    // An empty part. Of more slots than a part of its kind may hold the first ones serve.
    pub fn new(slots: &'a mut [Version]) -> SortedTable<'a, K>
        ensures empty { take result.rows.used result.rows.slots.now ≡ [] }
        ensures limit { length result.rows.slots.now ≡ min (length slots.old) K.Kind.MOST }
    {
        let limit = slots.len().min(K::MOST);
        SortedTable {
            kind: PhantomData,
            rows: Slots {
                slots: &mut slots[0..limit],
                used: 0,
            },
        }
    }
}

impl<K> Rows for SortedTable<'_, K> {
    ghost list = { λ t. take t.rows.used t.rows.slots.now };

    ghost ordered = { λ t. t.kept.ordered };

    fn len(&self) -> usize {
        self.rows.used
    }

    fn get(&self, index: usize) -> Option<Version> {
        self.rows.slots[..self.rows.used].get(index).copied()
    }
}

impl<K> Part for SortedTable<'_, K> {
    ghost versions = { λ t. take t.rows.used t.rows.slots.now };

    ghost most = { λ t. length t.rows.slots.now };

    ghost kept = { λ t. t.kept };

    fn count(&self) -> usize {
        self.len()
    }

    fn limit(&self) -> usize {
        self.rows.slots.len()
    }

    fn first_from(&self, place: Place) -> Option<Version> {
        first_in(self, place)
    }

    fn clear(&mut self) {
        self.rows.used = 0;
    }
}

impl<K: Seats> TakingPart<K> for SortedTable<'_, K> {
    fn take(&mut self, version: Version) -> Result<(), NotTaken> {
        let at = admitted::<K, _>(self, self.limit(), version)?;
        self.rows.insert(at, version);
        Ok(())
    }
}
