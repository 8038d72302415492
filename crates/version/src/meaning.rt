// What the questions and takings of a part mean, proved of the definitions that every contract of a part cites.
ghost use Rattle.std.specs.Prelude.{◌≡◌, true};
ghost use Rattle.version.specs.Meaning.{AnswersMean};

use crate::types::Place;

// Within a point the higher number stands first, no place stands before itself, and the last place of a point stands before the first of the next.
fn order_examples() -> bool
    ensures { result ≡ true }
{
    let newer = Place {
        point: 7,
        number: 3,
    };
    let older = Place {
        point: 7,
        number: 2,
    };
    let last = Place {
        point: 7,
        number: 0,
    };
    let next = Place {
        point: 8,
        number: u32::MAX,
    };
    newer.is_before(older)
        && !older.is_before(older)
        && !older.is_before(newer)
        && last.is_before(next)
}

// That the definitions mean what they are named after stands in the contract; examples of version order are computed.
pub fn answers_stand() -> bool
    ensures meaning { AnswersMean }
    ensures order { result ≡ true }
{
    order_examples()
}
