// Why a call was refused: one closed list for the whole cabinet, each case with its number.
#![tactic(auto)]

ghost use Rattle.std.specs.Prelude.{◌≡◌, Some, decimal};
ghost use Rattle.refusal.specs.Cases.{case_of};

use std::fmt;

#[derive(Clone, Copy, PartialEq, Eq, Debug)]
pub enum Refusal {
    // Writing a picture.
    NotAbove = 11,
    TooMany = 12,
    ShortBuffer = 13,
    TooWide = 14,
    AllIn = 15,
    Unfinished = 16,
    // Reading a picture.
    TooShort = 17,
    BadHead = 18,
    WrongLength = 19,
    NotRising = 20,
    WidthNotLeast = 21,
    PaddingSet = 22,
}

impl Refusal {
    // The number by which the cabinet's documents and programs know the case.
    pub fn number(self) -> u8
        ensures { result ≡ (case_of self).number }
    {
        self as u8
    }
}

// A user is shown the number.
impl fmt::Display for Refusal {
    ghost output = { λ refusal. Some (decimal (case_of refusal).number) };

    fn fmt<W: fmt::Write>(&self, f: &mut fmt::Formatter<W>) -> fmt::Result {
        write!(f, "{}", self.number())
    }
}

#[cfg(test)]
mod tests {
    use super::*;
    use std::test::Fail;

    #[test]
    fn each_case_is_shown_as_its_number(rt: HostRuntime) -> Result<(), Fail> {
        let table = [
            (Refusal::NotAbove, "refused 11"),
            (Refusal::TooMany, "refused 12"),
            (Refusal::ShortBuffer, "refused 13"),
            (Refusal::TooWide, "refused 14"),
            (Refusal::AllIn, "refused 15"),
            (Refusal::Unfinished, "refused 16"),
            (Refusal::TooShort, "refused 17"),
            (Refusal::BadHead, "refused 18"),
            (Refusal::WrongLength, "refused 19"),
            (Refusal::NotRising, "refused 20"),
            (Refusal::WidthNotLeast, "refused 21"),
            (Refusal::PaddingSet, "refused 22"),
        ];
        for (refusal, shown) in table {
            let text = format!(in rt.alloc(); "refused {refusal}")?;
            assert_eq!(rt; text.as_str(), shown);
        }
        Ok(())
    }
}
