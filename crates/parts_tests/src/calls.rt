// Calls on a part, with what each is answered. A version is given as its point, its number and its value, which is none if the point was removed.
use std::process::Abort;
use version::{Kind, NotTaken, Place, TakingPart, Version, look};

// What fills the slots before they hold a version.
pub const BLANK: Version = Version {
    point: 7,
    number: 3,
    value: None,
};

// A call, with a version, or with a point and a number.
#[derive(Clone, Copy)]
pub enum Call {
    Take(u16, u32, Option<i32>),
    Newest(u16, u32),
    From(u16, u32),
    Look(u16, u32),
    Count,
    Limit,
    Clear,
}

#[derive(Clone, Copy, PartialEq, Debug)]
pub enum Answer {
    Done,
    OutOfPlace,
    Full,
    Nothing,
    Found(u16, u32, Option<i32>),
    Number(usize),
}

// A call, and its answer.
pub type Step = (Call, Answer);

fn taken(res: Result<(), NotTaken>) -> Answer {
    match res {
        Ok(()) => Answer::Done,
        Err(NotTaken::OutOfPlace) => Answer::OutOfPlace,
        Err(NotTaken::Full) => Answer::Full,
    }
}

fn found(res: Option<Version>) -> Answer {
    res.map_or(Answer::Nothing, |version| {
        Answer::Found(version.point, version.number, version.value)
    })
}

// The answer to a call.
pub fn answer_to<K: Kind, P: TakingPart<K>>(part: &mut P, call: Call) -> Answer {
    match call {
        Call::Take(point, number, value) => taken(part.take(Version {
            point,
            number,
            value,
        })),
        Call::Newest(point, number) => found(part.newest(Place { point, number })),
        Call::From(point, number) => found(part.first_from(Place { point, number })),
        Call::Look(point, number) => found(look(part, Place { point, number })),
        Call::Count => Answer::Number(part.count()),
        Call::Limit => Answer::Number(part.limit()),
        Call::Clear => {
            part.clear();
            Answer::Done
        }
    }
}

// Makes the calls of some scripts, one behind the other. Each is answered as its script says. `case` names the part, and stands in what is said of a
// wrong answer.
pub fn runs<K: Kind, P: TakingPart<K>>(
    rt: &impl Abort,
    case: &str,
    part: &mut P,
    scripts: &[&[Step]],
) {
    for (place, script) in scripts.iter().enumerate() {
        for (index, (call, expected)) in script.iter().enumerate() {
            assert_eq!(rt;
                answer_to(part, *call),
                *expected,
                "{case}: script {place}, call {index}"
            );
        }
    }
}
