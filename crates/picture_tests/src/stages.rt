// A script of calls on the states of a writer, with what each is answered.
use crate::common::spelled;
use picture::{HandedBack, Measuring, Reading, Sealed, Writing};
use std::alloc::Global;
use std::process::Abort;
use std::test::Fail;

// A call, with a reading's point and value. `Turn`, `Add` and `Seal` are lent that many bytes of the buffer.
#[derive(Clone, Copy)]
pub enum Call {
    Measure(u16, i32),
    Turn(usize),
    Add(usize, u16, i32),
    Seal(usize),
}

// A call, and the number of its refusal if it is refused.
pub type Step = (Call, Option<u8>);

#[derive(Drop)]
enum Stage {
    Measured(Measuring),
    Written(Writing),
    Done(Sealed),
}

// The size that a state tells.
fn size_of(stage: &Stage) -> Option<usize> {
    match stage {
        Stage::Measured(state) => Some(state.size()),
        Stage::Written(_) => None,
        Stage::Done(state) => Some(state.size()),
    }
}

impl From<Measuring> for Stage {
    fn from(state: Measuring) -> Stage {
        Stage::Measured(state)
    }
}

impl From<Writing> for Stage {
    fn from(state: Writing) -> Stage {
        Stage::Written(state)
    }
}

impl From<Sealed> for Stage {
    fn from(state: Sealed) -> Stage {
        Stage::Done(state)
    }
}

// The state that a call leaves, and the number of the refusal if it is refused.
fn left<T: Into<Stage>, S: Into<Stage>>(answer: Result<T, HandedBack<S>>) -> (Stage, Option<u8>) {
    match answer {
        Ok(next) => (next.into(), None),
        Err(back) => (back.state.into(), Some(back.refusal.number())),
    }
}

// The state after a call, and the number of the refusal if the call is refused.
fn after(stage: Stage, bytes: &mut [u8; 16], call: Call) -> Result<(Stage, Option<u8>), Fail> {
    match stage {
        Stage::Measured(state) => match call {
            Call::Measure(point, value) => Ok(left(state.measure(Reading { point, value }))),
            Call::Turn(lent) => Ok(left(state.into_writing(&mut bytes[0..lent.min(16)]))),
            _ => Err(Fail::new("a call of a later state")),
        },
        Stage::Written(state) => match call {
            Call::Add(lent, point, value) => Ok(left(state.add(
                &mut bytes[0..lent.min(16)],
                Reading { point, value },
            ))),
            Call::Seal(lent) => Ok(left(state.seal(&bytes[0..lent.min(16)]))),
            _ => Err(Fail::new("a call of an earlier state")),
        },
        Stage::Done(_) => Err(Fail::new("a call on a sealed picture")),
    }
}

// Makes the calls of a script on a buffer of 16 bytes AA. Each is answered as the script says, and a refused one leaves the buffer and the state's
// size as they were. In the end the buffer and the size are those given. `case` names the script where they are not.
pub fn runs(
    rt: &impl Abort,
    heap: Global,
    case: &str,
    handle: u32,
    script: &[Step],
    text: &str,
    size: Option<usize>,
) -> Result<(), Fail> {
    let mut buffer = [0xAAu8; 16];
    let mut stage = Stage::Measured(Measuring::new(handle));
    for (index, (call, refusal)) in script.iter().enumerate() {
        let before = (size_of(&stage), buffer);
        let (next, answer) = after(stage, &mut buffer, *call)?;
        assert_eq!(rt; answer, *refusal, "{case}: call {index}");
        if answer.is_some() {
            assert_eq!(rt; (size_of(&next), buffer), before, "{case}: call {index}");
        }
        stage = next;
    }
    assert_eq!(rt; size_of(&stage), size, "{case}");
    assert_eq!(rt;
        spelled(heap, text)?.as_slice(),
        buffer.as_slice(),
        "{case}"
    );
    Ok(())
}
