// What a rule book is: the codes that it knows, and for each code, argument and old state one outcome.
ghost use Rattle.std.specs.Prelude.{◌≡◌, ℕ, false, ℤ, Option, Some, ◌++◌, codes, decimal};
ghost use Rattle.rules.specs.declared.book.Outcome.TheVariants.{Leave};
ghost use Rattle.rules.specs.Books.{Book};

use std::error::Error;
use std::fmt;

// What a rule does to a state, which is a value or nothing.
#[derive(Clone, Copy, PartialEq, Eq, Debug)]
pub enum Outcome {
    Set(i32),
    Clear,
    Leave,
}

// A code by which a book knows no rule.
#[derive(Clone, Copy, PartialEq, Eq, Debug)]
pub struct UnknownCode(pub u8);

impl fmt::Display for UnknownCode {
    ghost output = { λ e. Some (codes "no rule has the code " ++ decimal e.0) };

    fn fmt<W: fmt::Write>(&self, f: &mut fmt::Formatter<W>) -> fmt::Result {
        write!(f, "no rule has the code {}", self.0)
    }
}

impl Error for UnknownCode {}

pub trait RuleBook {
    ghost meaning: { Self → Book };

    fn knows(&self, code: u8) -> bool
        ensures { result ≡ (meaning self.now).known code };

    fn decide(&self, code: u8, argument: i32, old: Option<i32>) -> Outcome
        ensures { result ≡ (meaning self.now).outcome code argument old };

    // So that a caller who does not ask `knows` first does no harm.
    ghost unknown_leaves: { (book : Self) (code : ℕ) (argument : ℤ) (old : Option ℤ) → (meaning book).known code ≡ false → (meaning book).outcome code argument old ≡ Leave };
}
