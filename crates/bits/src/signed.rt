// Signed values as the numbers that stand for them in a field, and in a field: two's complement.
ghost use Rattle.std.specs.Prelude.{◌≡◌, ◌+◌, ◌-◌, ◌*◌, ◌^◌, ◌<◌, ◌≤◌, length};
ghost use Rattle.std.specs.Int.Signed.{mag};
ghost use Rattle.bits.specs.Fields.{field, Wrote};
ghost use Rattle.bits.specs.Signed.{twos, signed_of};

use crate::types::Field;

// The number that stands for `value` in a field of `width` bits.
#[tactic(auto, using(crate::proofs::Twos::low_bits_computed, crate::proofs::Twos::twos_lt))]
pub fn to_twos(value: i32, width: u32) -> u64
    requires low { 1 ≤ width }
    requires high { width ≤ 32 }
    requires fits { mag value < 2 ^ (width - 1) }
    ensures value { result ≡ twos width value }
    ensures bound { result < 2 ^ width }
{
    u64::from(value.cast_unsigned()) % (1u64 << width)
}

// The value that `n` stands for in a field of `width` bits.
pub fn from_twos(n: u64, width: u32) -> i32
    requires low { 1 ≤ width }
    requires high { width ≤ 32 }
    requires fits { n < 2 ^ width }
    ensures { result ≡ signed_of width n }
{
    if n < 1u64 << (width - 1) {
        n as i32
    } else {
        (n as i64 - (1i64 << width)) as i32
    }
}

impl Field {
    // The field of the head or record that begins at bit `place`, as a signed value.
    pub fn read_signed(self, bytes: &[u8], place: usize) -> i32
        requires some { 1 ≤ self.width }
        requires within { place + self.at + self.width ≤ 8 * length bytes.now }
        requires small { place + self.at < 2 ^ 32 }
        ensures { result ≡ signed_of self.width (field bytes.now (place + self.at) self.width) }
    {
        from_twos(self.read(bytes, place), self.width as u32)
    }

    // Writes a signed value into the field of the head or record that begins at bit `place`.
    pub fn write_signed(self, bytes: &mut [u8], place: usize, value: i32)
        requires some { 1 ≤ self.width }
        requires within { place + self.at + self.width ≤ 8 * length bytes.old }
        requires small { place + self.at < 2 ^ 32 }
        requires fits { mag value < 2 ^ (self.width - 1) }
        ensures { Wrote bytes.old bytes.new (place + self.at) self.width (twos self.width value) }
    {
        self.write(bytes, place, to_twos(value, self.width as u32));
    }
}
