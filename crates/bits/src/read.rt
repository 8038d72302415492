// Reading a field: five bytes, which hold every bit of it, are joined to one number, of which the field is a part.
ghost use Rattle.std.specs.Prelude.{◌≡◌, ◌+◌, ◌*◌, ◌^◌, ◌<◌, ◌≤◌, length};
ghost use Rattle.bits.specs.Fields.{field};

use crate::types::Field;
use std::array;

// The five bytes from `first` on, the first of them the highest.
fn five_bytes(bytes: &[u8], first: usize) -> u64
    requires { first + 5 ≤ length bytes.now }
    ensures { result ≡ field bytes.now (8 * first) 40 }
{
    let four = u32::from_be_bytes([
        bytes[first],
        bytes[first + 1],
        bytes[first + 2],
        bytes[first + 3],
    ]);
    (u64::from(four) << 8) + u64::from(bytes[first + 4])
}

// The same near the end of the bytes: those behind the last count as 0.
fn last_bytes(bytes: &[u8], first: usize) -> u64
    requires { first < 2 ^ 32 }
    ensures { result ≡ field bytes.now (8 * first) 40 }
{
    let five: [u8; 5] = array::from_fn(|i| bytes.get(first + i).copied().unwrap_or(0));
    five_bytes(&five, 0)
}

impl Field {
    // The field of the head or record that begins at bit `place`, as a number; at most five bytes are read.
    pub fn read(self, bytes: &[u8], place: usize) -> u64
        requires within { place + self.at + self.width ≤ 8 * length bytes.now }
        requires small { place + self.at < 2 ^ 32 }
        ensures value { result ≡ field bytes.now (place + self.at) self.width }
        ensures bound { result < 2 ^ self.width }
    {
        let start = place + self.at;
        let first = start / 8;
        let joined = if first + 5 <= bytes.len() {
            five_bytes(bytes, first)
        } else {
            last_bytes(bytes, first)
        };
        (joined >> (40 - start % 8 - self.width)) % (1u64 << self.width)
    }
}
