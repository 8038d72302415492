// Bytes as hexadecimal text.
ghost use Rattle.std.specs.Prelude.{◌≡◌, ◌<◌, IfSome, Some};
ghost use Rattle.cabinet.specs.Digits.{byte_of, digit_of, digit_value, digits_of, spelled};

use std::fmt;

// The value of a digit, either case.
fn digit_value(digit: u8) -> Option<u8>
    ensures value { result ≡ digit_value digit }
    ensures bound { IfSome result (λ v. v < 16) }
{
    match digit {
        b'0'..=b'9' => Some(digit - b'0'),
        b'A'..=b'F' => Some(digit - b'A' + 10),
        b'a'..=b'f' => Some(digit - b'a' + 10),
        _ => None,
    }
}

// The digit of a value: reading it gives the value again.
fn digit_of(value: u8) -> u8
    requires { value < 16 }
    ensures value { result ≡ digit_of value }
    ensures reads { digit_value result ≡ Some value }
    ensures upper { result < 71 }
{
    if value < 10 {
        b'0' + value
    } else {
        b'A' + (value - 10)
    }
}

// The byte that two digits spell; what is not two digits spells none.
pub fn byte_of(pair: &[u8]) -> Option<u8>
    ensures { result ≡ byte_of pair.now }
{
    match *pair {
        [high, low] => Some(16 * digit_value(high)? + digit_value(low)?),
        _ => None,
    }
}

// A byte, printed as its two digits.
#[derive(Clone, Copy)]
struct TwoDigits(u8);

impl fmt::Display for TwoDigits {
    ghost output = { λ b. Some (digits_of b.0) };

    fn fmt<W: fmt::Write>(&self, f: &mut fmt::Formatter<W>) -> fmt::Result {
        // as text, since `write_char` is a call for each digit
        let mut bytes = [0u8; 4];
        f.write_str(char::from(digit_of(self.0 / 16)).encode_utf8(&mut bytes))?;
        f.write_str(char::from(digit_of(self.0 % 16)).encode_utf8(&mut bytes))
    }
}

// Bytes, printed with one space between.
#[derive(Clone, Copy)]
pub struct Spelled<'a>(pub &'a [u8]);

impl fmt::Display for Spelled<'_> {
    ghost output = { λ s. Some (spelled s.0.now) };

    fn fmt<W: fmt::Write>(&self, f: &mut fmt::Formatter<W>) -> fmt::Result {
        if let Some((first, rest)) = self.0.split_first() {
            write!(f, "{}", TwoDigits(*first))?;
            for byte in rest {
                write!(f, " {}", TwoDigits(*byte))?;
            }
        }
        Ok(())
    }
}
