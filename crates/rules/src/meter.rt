// The meter book: a point that counts, or keeps the greatest value that it was given.
ghost use Rattle.std.specs.Prelude.{◌≡◌};
ghost use Rattle.rules.specs.Books.{add, peak, meter};
ghost use Rattle.rules.specs.Codes.{meter_code, Decodes};
ghost use Rattle.std.proofs.Common.{rules};

use crate::book::{Outcome, RuleBook, UnknownCode};

// The rules of the book, each with its code.
#[derive(Clone, Copy, PartialEq, Eq, Debug)]
pub enum MeterRule {
    Add = 1,
    Peak = 2,
}

impl From<MeterRule> for u8 {
    ghost from_gives = { λ rule code. code ≡ meter_code rule };

    fn from(rule: MeterRule) -> u8 {
        rule as u8
    }
}

impl TryFrom<u8> for MeterRule {
    type Error = UnknownCode;

    ghost try_from_gives = { Decodes meter meter_code };

    fn try_from(code: u8) -> Result<Self, UnknownCode> {
        match code {
            1 => Ok(MeterRule::Add),
            2 => Ok(MeterRule::Peak),
            _ => Err(UnknownCode(code)),
        }
    }
}

#[derive(Clone, Copy)]
pub struct Meter;

impl RuleBook for Meter {
    ghost meaning = { λ _. meter };

    ghost unknown_leaves = { Prim.search rules };

    fn knows(&self, code: u8) -> bool {
        MeterRule::try_from(code).is_ok()
    }

    fn decide(&self, code: u8, argument: i32, old: Option<i32>) -> Outcome {
        match MeterRule::try_from(code) {
            Ok(MeterRule::Add) => add(argument, old),
            Ok(MeterRule::Peak) => peak(argument, old),
            Err(_) => Outcome::Leave,
        }
    }
}

// Nothing counts as 0. The sum stops at the greatest value, since one that wrapped would look like a meter that was set back.
fn add(argument: i32, old: Option<i32>) -> Outcome
    ensures { result ≡ add argument old }
{
    if argument < 0 {
        Outcome::Leave
    } else {
        Outcome::Set(old.unwrap_or(0).saturating_add(argument))
    }
}

fn peak(argument: i32, old: Option<i32>) -> Outcome
    ensures { result ≡ peak argument old }
{
    match old {
        Some(highest) if argument <= highest => Outcome::Leave,
        _ => Outcome::Set(argument),
    }
}

#[cfg(test)]
mod tests {
    use super::*;

    const ADD: u8 = MeterRule::Add as u8;

    const PEAK: u8 = MeterRule::Peak as u8;

    #[test]
    fn outcomes_at_the_edges(rt: HostRuntime) {
        let table = [
            (ADD, -1, Some(7), Outcome::Leave),
            (ADD, i32::MIN, None, Outcome::Leave),
            (ADD, 0, None, Outcome::Set(0)),
            (ADD, 5, None, Outcome::Set(5)),
            (ADD, 5, Some(-7), Outcome::Set(-2)),
            (ADD, i32::MAX, Some(i32::MIN), Outcome::Set(-1)),
            (ADD, 1, Some(i32::MAX - 1), Outcome::Set(i32::MAX)),
            (ADD, 1, Some(i32::MAX), Outcome::Set(i32::MAX)),
            (ADD, i32::MAX, Some(i32::MAX), Outcome::Set(i32::MAX)),
            (PEAK, 5, Some(5), Outcome::Leave),
            (PEAK, 6, Some(5), Outcome::Set(6)),
            (PEAK, 4, Some(5), Outcome::Leave),
            (PEAK, i32::MIN, None, Outcome::Set(i32::MIN)),
            (PEAK, i32::MIN, Some(i32::MIN), Outcome::Leave),
            (PEAK, -1, Some(i32::MIN), Outcome::Set(-1)),
            (0, 5, None, Outcome::Leave),
            (3, 5, Some(4), Outcome::Leave),
            (255, 5, None, Outcome::Leave),
        ];
        for (code, argument, old, expected) in table {
            assert_eq!(rt; Meter.knows(code), code == ADD || code == PEAK);
            assert_eq!(rt; Meter.decide(code, argument, old), expected);
        }
    }
}
