// Parts of every size: filled to the limit and no further, and every version found again.
use crate::calls::Answer::*;
use crate::calls::Call::*;
use crate::calls::{BLANK, Step, answer_to, runs};
use crate::every::LOOSE;
use parts::{FlashTable, LinkedList, MemoryTable, PackedFlash};
use std::process::Abort;
use std::test::Fail;
use version::{Kind, TakingPart};

static EMPTIED: [Step; 4] = [
    (Clear, Done),
    (Count, Number(0)),
    (Newest(0, 3), Nothing),
    (From(0, 3), Nothing),
];

// What a part answers that holds the points below its limit, and what it does not take.
fn full(limit: u16) -> [Step; 6] {
    [
        (Limit, Number(usize::from(limit))),
        (Count, Number(usize::from(limit))),
        (Take(limit, 3, None), Full),
        (Take(65_535, 1, Some(0)), Full),
        (Take(limit, 0, None), OutOfPlace),
        (From(limit, 3), Nothing),
    ]
}

// An emptied part takes the points below its limit in the order given, and no more, and finds them all. `case` names it where it does not.
fn fills<K: Kind, P: TakingPart<K>>(
    rt: &impl Abort,
    case: &str,
    part: &mut P,
    limit: u16,
    points: &[u16],
) {
    runs(rt, case, part, &[&EMPTIED]);
    for point in points {
        let call = Take(*point, 3, Some(-i32::from(*point)));
        assert_eq!(rt; answer_to(part, call), Done, "{case}");
    }
    runs(rt, case, part, &[&full(limit)]);
    for point in points {
        let found = Found(*point, 3, Some(-i32::from(*point)));
        assert_eq!(rt; answer_to(part, Newest(*point, 3)), found, "{case}");
        assert_eq!(rt; answer_to(part, From(*point, 4)), found, "{case}");
    }
}

// Slots or nodes, and the limit that they give.
static MEMORY_SIZES: [(usize, u16); 4] = [(0, 0), (1, 1), (1024, 1024), (1030, 1024)];

#[test]
fn memory_parts_to_their_limits(rt: HostRuntime) -> Result<(), Fail> {
    let heap = rt.alloc();
    for (size, limit) in &MEMORY_SIZES {
        let rising: Vec<u16> = (0..*limit).collect(heap)?;
        let falling: Vec<u16> = (0..*limit).rev().collect(heap)?;
        let mut slots = vec![in heap; BLANK; *size]?;
        let mut table = MemoryTable::new(slots.as_mut_slice());
        fills(&rt, "memory table, rising", &mut table, *limit, &rising);
        fills(&rt, "memory table, falling", &mut table, *limit, &falling);
        let mut nodes = vec![in heap; LOOSE; *size]?;
        let mut list = LinkedList::new(nodes.as_mut_slice());
        fills(&rt, "linked list, rising", &mut list, *limit, &rising);
        fills(&rt, "linked list, falling", &mut list, *limit, &falling);
    }
    Ok(())
}

// Each part has a test of its own, since the memory that it is lent has a type of its own.

// Slots, and the limit that they give.
static TABLE_SIZES: [(usize, u16); 3] = [(0, 0), (1, 1), (4100, 4096)];

#[test]
fn flash_tables_to_their_limits(rt: HostRuntime) -> Result<(), Fail> {
    let heap = rt.alloc();
    for (size, limit) in &TABLE_SIZES {
        let rising: Vec<u16> = (0..*limit).collect(heap)?;
        let mut slots = vec![in heap; BLANK; *size]?;
        let mut table = FlashTable::new(slots.as_mut_slice());
        fills(&rt, "flash table", &mut table, *limit, &rising);
    }
    Ok(())
}

// Bytes, and the limit that they give: 10 bytes are 80 bits, and 41,472 are 4,096 times 81.
static PACKED_SIZES: [(usize, u16); 5] = [(0, 0), (10, 0), (11, 1), (41_472, 4096), (41_500, 4096)];

#[test]
fn packed_flash_to_its_limits(rt: HostRuntime) -> Result<(), Fail> {
    let heap = rt.alloc();
    for (size, limit) in &PACKED_SIZES {
        let rising: Vec<u16> = (0..*limit).collect(heap)?;
        let mut bytes = vec![in heap; 0xFFu8; *size]?;
        let mut flash = PackedFlash::new(bytes.as_mut_slice());
        fills(&rt, "packed flash", &mut flash, *limit, &rising);
    }
    Ok(())
}
