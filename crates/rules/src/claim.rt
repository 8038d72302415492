// The claim book: a point that has at most one holder, until that holder gives it up.
ghost use Rattle.std.specs.Prelude.{◌≡◌};
ghost use Rattle.rules.specs.Books.{claim, give_up, claims};
ghost use Rattle.rules.specs.Codes.{claim_code, Decodes};
ghost use Rattle.std.proofs.Common.{rules};

use crate::book::{Outcome, RuleBook, UnknownCode};

// The rules of the book, each with its code.
#[derive(Clone, Copy, PartialEq, Eq, Debug)]
pub enum ClaimRule {
    Claim = 1,
    GiveUp = 2,
}

// As for the meter's rules: one impl for all rules would be an impl of std's traits for every type, which is refused.
impl From<ClaimRule> for u8 {
    ghost from_gives = { λ rule code. code ≡ claim_code rule };

    fn from(rule: ClaimRule) -> u8 {
        rule as u8
    }
}

impl TryFrom<u8> for ClaimRule {
    type Error = UnknownCode;

    ghost try_from_gives = { Decodes claims claim_code };

    fn try_from(code: u8) -> Result<Self, UnknownCode> {
        match code {
            1 => Ok(ClaimRule::Claim),
            2 => Ok(ClaimRule::GiveUp),
            _ => Err(UnknownCode(code)),
        }
    }
}

#[derive(Clone, Copy)]
pub struct Claims;

impl RuleBook for Claims {
    ghost meaning = { λ _. claims };

    ghost unknown_leaves = { Prim.search rules };

    fn knows(&self, code: u8) -> bool {
        ClaimRule::try_from(code).is_ok()
    }

    // A book's rules are named here alone: one `decide` for both books would ask for this match under another name.
    fn decide(&self, code: u8, argument: i32, old: Option<i32>) -> Outcome {
        match ClaimRule::try_from(code) {
            Ok(ClaimRule::Claim) => claim(argument, old),
            Ok(ClaimRule::GiveUp) => give_up(argument, old),
            Err(_) => Outcome::Leave,
        }
    }
}

// A holder keeps the point, also against a second claim of its own.
fn claim(argument: i32, old: Option<i32>) -> Outcome
    ensures { result ≡ claim argument old }
{
    match old {
        None => Outcome::Set(argument),
        Some(_) => Outcome::Leave,
    }
}

// Only its holder can give the point up.
fn give_up(argument: i32, old: Option<i32>) -> Outcome
    ensures { result ≡ give_up argument old }
{
    match old {
        Some(holder) if holder == argument => Outcome::Clear,
        _ => Outcome::Leave,
    }
}

#[cfg(test)]
mod tests {
    use super::*;

    const CLAIM: u8 = ClaimRule::Claim as u8;

    const GIVE_UP: u8 = ClaimRule::GiveUp as u8;

    #[test]
    fn outcomes_at_the_edges(rt: HostRuntime) {
        let table = [
            (CLAIM, 7, None, Outcome::Set(7)),
            (CLAIM, i32::MIN, None, Outcome::Set(i32::MIN)),
            (CLAIM, 7, Some(7), Outcome::Leave),
            (CLAIM, 8, Some(7), Outcome::Leave),
            (GIVE_UP, 7, Some(7), Outcome::Clear),
            (GIVE_UP, i32::MIN, Some(i32::MIN), Outcome::Clear),
            (GIVE_UP, 8, Some(7), Outcome::Leave),
            (GIVE_UP, -7, Some(7), Outcome::Leave),
            (GIVE_UP, 7, None, Outcome::Leave),
            (GIVE_UP, 0, None, Outcome::Leave),
            (0, 7, None, Outcome::Leave),
            (3, 7, Some(7), Outcome::Leave),
            (255, 7, Some(7), Outcome::Leave),
        ];
        for (code, argument, old, expected) in table {
            assert_eq!(rt; Claims.knows(code), code == CLAIM || code == GIVE_UP);
            assert_eq!(rt; Claims.decide(code, argument, old), expected);
        }
    }
}
