// Writing a field: part by part, each part within one byte.
ghost use Rattle.std.specs.Prelude.{◌≡◌, ◌+◌, ◌*◌, ◌%◌, ◌^◌, ◌<◌, ◌≤◌, length};
ghost use Rattle.bits.specs.Fields.{with_part, Wrote};

use crate::types::Field;

// The byte `old` with `value` in the `width` bits above the lowest `low`.
#[tactic(auto, using(crate::proofs::Writes::part_computed))]
fn merged(old: u8, low: usize, width: usize, value: u8) -> u8
    requires one_byte { low + width ≤ 8 }
    requires fits { value < 2 ^ width }
    ensures { result ≡ with_part old low width value }
{
    let old = u16::from(old);
    let above = (old >> (low + width)) << (low + width);
    let below = old % (1u16 << low);
    (above + (u16::from(value) << low) + below) as u8
}

// Writes `value` into the `width` bits from `place` on, which lie in one byte.
fn write_part(bytes: &mut [u8], place: usize, width: usize, value: u8)
    requires some { 1 ≤ width }
    requires one_byte { place % 8 + width ≤ 8 }
    requires within { place < 8 * length bytes.old }
    requires fits { value < 2 ^ width }
    ensures { Wrote bytes.old bytes.new place width value }
{
    let old = bytes[place / 8];
    bytes[place / 8] = merged(old, 8 - place % 8 - width, width, value);
}

impl Field {
    // Writes `value` into the field of the head or record that begins at bit `place`; at most five bytes are read and written.
    pub fn write(self, bytes: &mut [u8], place: usize, value: u64)
        requires within { place + self.at + self.width ≤ 8 * length bytes.old }
        requires small { place + self.at < 2 ^ 32 }
        requires fits { value < 2 ^ self.width }
        ensures { Wrote bytes.old bytes.new (place + self.at) self.width value }
    {
        let start = place + self.at;
        let mut done = 0;
        // A range or an iterator would be no plainer: each part is as long as its byte leaves room.
        while done < self.width {
            let here = start + done;
            let part = (8 - here % 8).min(self.width - done);
            let rest = self.width - done - part;
            write_part(bytes, here, part, ((value >> rest) % (1u64 << part)) as u8);
            done += part;
        }
    }
}
