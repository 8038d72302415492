// The questions answered by going through all versions, in whatever order they came, and compared with every part.
use crate::calls::{Answer, Call, Step};
use crate::every::{every_memory_part, every_part};
use std::alloc::Global;
use std::test::Fail;

// A point, a number and a value, or none if the point was removed.
type Said = (u16, u32, Option<i32>);

static IN_ORDER: [Said; 8] = [
    (1, 6, Some(16)),
    (1, 3, None),
    (2, 5, Some(25)),
    (4, 7, Some(47)),
    (4, 6, Some(46)),
    (4, 1, None),
    (5, 2, None),
    (7, 4, Some(74)),
];

static SHUFFLED: [Said; 8] = [
    (4, 6, Some(46)),
    (7, 4, Some(74)),
    (1, 3, None),
    (4, 1, None),
    (1, 6, Some(16)),
    (5, 2, None),
    (4, 7, Some(47)),
    (2, 5, Some(25)),
];

// Whether a question asks for versions such as this one.
fn fits(question: Call, said: Said) -> bool {
    match question {
        Call::Newest(point, number) => said.0 == point && said.1 <= number,
        Call::From(point, number) => said.0 > point || (said.0 == point && said.1 <= number),
        Call::Look(point, number) => said.0 >= point && said.1 <= number,
        _ => false,
    }
}

// Whether a version goes before the best so far: by a lower point, or by a higher number of the point.
fn is_better(said: Said, best: Answer) -> bool {
    match best {
        Answer::Found(point, number, _) => {
            said.0 < point || (said.0 == point && said.1 > number)
        }
        _ => true,
    }
}

// Of the versions that a question asks for, the best.
fn plain_answer(versions: &[Said], question: Call) -> Answer {
    let mut best = Answer::Nothing;
    for said in versions {
        if fits(question, *said) && is_better(*said, best) {
            best = Answer::Found(said.0, said.1, said.2);
        }
    }
    best
}

// Takes the versions, and then asks every question with a point and a number up to 8.
fn all_questions(heap: Global, versions: &[Said]) -> Result<Vec<Step>, Fail> {
    let mut script = Vec::new(heap);
    for said in versions {
        script.push((Call::Take(said.0, said.1, said.2), Answer::Done))?;
    }
    for point in 0..9u16 {
        for number in 0..9u32 {
            for question in [
                Call::Newest(point, number),
                Call::From(point, number),
                Call::Look(point, number),
            ] {
                script.push((question, plain_answer(versions, question)))?;
            }
        }
    }
    Ok(script)
}

#[test]
fn as_by_going_through_all(rt: HostRuntime) -> Result<(), Fail> {
    every_part(&rt, &[all_questions(rt.alloc(), &IN_ORDER)?.as_slice()]);
    every_memory_part(&rt, &[all_questions(rt.alloc(), &SHUFFLED)?.as_slice()]);
    Ok(())
}
