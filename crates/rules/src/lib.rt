// Rule books: what becomes of a value when a rule is applied to it.
#![tactic(auto)]

mod book;
mod claim;
mod meter;
mod worked;

// What every rule book answers: whether it knows a code, and the outcome. An unknown code leaves all as it is.
pub use book::{Outcome, RuleBook, UnknownCode};

// The meter book: add to a value, and keep the greatest.
pub use meter::{Meter, MeterRule};

// The claim book: claim what has no holder, and give it up again.
pub use claim::{ClaimRule, Claims};

// Worked cases, proved.
pub use worked::worked_rules_stand;
