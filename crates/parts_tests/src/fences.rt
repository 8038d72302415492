// A fence does not ask the part below it what the least and the greatest point held decide.
use crate::calls::Answer::*;
use crate::calls::Call::*;
use crate::calls::{BLANK, Step, answer_to};
use crate::counting::Counting;
use crate::every::LOOSE;
use parts::{Fence, FlashTable, LinkedList, MemoryTable, PackedFlash};
use std::cell::Cell;
use std::process::Abort;
use version::{Kind, TakingPart};

const TOP: u32 = 4_294_967_295;

// A call with its answer, and how many questions reach the part below the fence.
type Counted = (Step, u32);

// A fence with room for 4 versions, which is emptied in the end.
static RISING: [Counted; 61] = [
    // empty: nothing is asked but the limit
    ((Count, Number(0)), 0),
    ((Newest(0, TOP), Nothing), 0),
    ((Newest(20, 5), Nothing), 0),
    ((From(0, TOP), Nothing), 0),
    ((From(65_535, 0), Nothing), 0),
    ((Look(0, TOP), Nothing), 0),
    ((Limit, Number(4)), 1),
    // a version that is not taken widens nothing
    ((Take(20, 0, Some(1)), OutOfPlace), 0),
    ((Count, Number(0)), 0),
    ((From(0, TOP), Nothing), 0),
    ((Newest(20, TOP), Nothing), 0),
    // one point, the least and the greatest
    ((Take(20, 5, Some(1)), Done), 0),
    ((Count, Number(1)), 1),
    ((Newest(19, TOP), Nothing), 0),
    ((Newest(20, TOP), Found(20, 5, Some(1))), 1),
    ((Newest(20, 4), Nothing), 1),
    ((Newest(21, TOP), Nothing), 0),
    ((From(19, 0), Found(20, 5, Some(1))), 1),
    ((From(20, TOP), Found(20, 5, Some(1))), 1),
    ((From(20, 0), Nothing), 1),
    ((From(21, TOP), Nothing), 0),
    // three points
    ((Take(20, 2, None), Done), 0),
    ((Take(30, 4, Some(3)), Done), 0),
    ((Take(40, 3, Some(4)), Done), 0),
    ((Count, Number(4)), 1),
    ((Limit, Number(4)), 1),
    // the newest version: below the least point, at it, between, at the greatest, above
    ((Newest(0, TOP), Nothing), 0),
    ((Newest(19, TOP), Nothing), 0),
    ((Newest(20, 2), Found(20, 2, None)), 1),
    ((Newest(20, 1), Nothing), 1),
    ((Newest(25, TOP), Nothing), 1),
    ((Newest(30, TOP), Found(30, 4, Some(3))), 1),
    ((Newest(40, 3), Found(40, 3, Some(4))), 1),
    ((Newest(40, 0), Nothing), 1),
    ((Newest(41, TOP), Nothing), 0),
    ((Newest(65_535, TOP), Nothing), 0),
    // the first version: from below the least point on, from between, from the greatest, from above
    ((From(0, 0), Found(20, 5, Some(1))), 1),
    ((From(19, 0), Found(20, 5, Some(1))), 1),
    ((From(25, 0), Found(30, 4, Some(3))), 1),
    ((From(40, TOP), Found(40, 3, Some(4))), 1),
    ((From(40, 2), Nothing), 1),
    ((From(41, TOP), Nothing), 0),
    ((From(65_535, 0), Nothing), 0),
    // a look asks for the first version, and again from behind a version that is too new
    ((Look(0, 5), Found(20, 5, Some(1))), 1),
    ((Look(0, 4), Found(20, 2, None)), 2),
    ((Look(21, 3), Found(40, 3, Some(4))), 2),
    ((Look(40, 2), Nothing), 1),
    ((Look(41, TOP), Nothing), 0),
    // full: what is not taken widens nothing
    ((Take(50, 1, Some(0)), Full), 0),
    ((Take(60, 0, Some(0)), OutOfPlace), 0),
    ((Newest(50, TOP), Nothing), 0),
    ((From(41, TOP), Nothing), 0),
    ((Clear, Done), 0),
    ((Count, Number(0)), 0),
    ((Newest(30, TOP), Nothing), 0),
    ((From(0, TOP), Nothing), 0),
    ((Look(0, TOP), Nothing), 0),
    // the old points are forgotten
    ((Take(30, 7, None), Done), 0),
    ((Newest(20, TOP), Nothing), 0),
    ((From(31, TOP), Nothing), 0),
    ((Clear, Done), 0),
];

// Makes the calls on a fence. Each is answered as the script says, and asks below as often. `case` names the part below.
fn counts_fence<K: Kind, P: TakingPart<K>>(
    rt: &impl Abort,
    case: &str,
    fence: &mut P,
    asked: &Cell<u32>,
    script: &[Counted],
) {
    for (index, ((call, expected), questions)) in script.iter().enumerate() {
        asked.set(0);
        let said = answer_to(fence, *call);
        assert_eq!(rt;
            (said, asked.get()),
            (*expected, *questions),
            "{case}: call {index}"
        );
    }
}

// The same on a fence that is made over a part.
fn counts<K: Kind, P: TakingPart<K> + Drop>(
    rt: &impl Abort,
    case: &str,
    below: P,
    script: &[Counted],
) {
    let asked = Cell::new(0);
    let below = Counting {
        below,
        asked: &asked,
    };
    counts_fence(rt, case, &mut Fence::new(below), &asked, script);
}

#[test]
fn questions_below_a_fence(rt: HostRuntime) {
    let mut slots = [BLANK; 4];
    let mut nodes = [LOOSE; 4];
    // 4 times 81 bits are 324
    let mut bytes = [0u8; 41];
    counts(&rt, "memory table", MemoryTable::new(&mut slots), &RISING);
    counts(&rt, "linked list", LinkedList::new(&mut nodes), &RISING);
    counts(&rt, "flash table", FlashTable::new(&mut slots), &RISING);
    counts(&rt, "packed flash", PackedFlash::new(&mut bytes), &RISING);
}

// In memory a fence widens to both sides.
static BOTH_SIDES: [Counted; 15] = [
    ((Take(30, 1, Some(0)), Done), 0),
    ((Newest(20, TOP), Nothing), 0),
    ((Newest(25, TOP), Nothing), 0),
    ((Take(20, 1, Some(-1)), Done), 0),
    ((Newest(19, TOP), Nothing), 0),
    ((Newest(20, TOP), Found(20, 1, Some(-1))), 1),
    ((Newest(25, TOP), Nothing), 1),
    ((Newest(35, TOP), Nothing), 0),
    ((Take(40, 1, None), Done), 0),
    ((Newest(35, TOP), Nothing), 1),
    ((From(31, TOP), Found(40, 1, None)), 1),
    // between the two, and again at the same place: neither widens
    ((Take(25, 9, Some(5)), Done), 0),
    ((Take(25, 9, Some(5)), OutOfPlace), 0),
    ((Newest(19, TOP), Nothing), 0),
    ((From(41, TOP), Nothing), 0),
];

#[test]
fn fence_that_widens_to_both_sides(rt: HostRuntime) {
    let mut slots = [BLANK; 4];
    let mut nodes = [LOOSE; 4];
    counts(
        &rt,
        "memory table",
        MemoryTable::new(&mut slots),
        &BOTH_SIDES,
    );
    counts(&rt, "linked list", LinkedList::new(&mut nodes), &BOTH_SIDES);
}
