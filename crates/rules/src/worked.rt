// Worked cases, proved of the definitions that every contract here cites.
ghost use Rattle.std.specs.Prelude.{◌≡◌, true};
ghost use Rattle.rules.specs.Worked.{Worked};

use crate::book::{Outcome, RuleBook};
use crate::meter::{Meter, MeterRule};

// Two edges of the meter book, which are computed, and stand in the contract.
pub fn worked_rules_stand() -> bool
    ensures cases { Worked }
    ensures computed { result ≡ true }
{
    (Meter.decide(u8::from(MeterRule::Peak), 5, Some(5)) == Outcome::Leave)
        & (Meter.decide(u8::from(MeterRule::Add), 1, Some(i32::MAX)) == Outcome::Set(i32::MAX))
}
