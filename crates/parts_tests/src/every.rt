// Every part with room for 8 versions, alone and under a fence, given the same scripts.
use crate::calls::{BLANK, Step, runs};
use parts::{Fence, FlashTable, LinkedList, MemoryTable, Node, PackedFlash};
use std::process::Abort;
use version::{Kind, TakingPart};

// A node whose link leads nowhere.
pub const LOOSE: Node = Node {
    version: BLANK,
    next: Some(65_535),
};

// Gives the scripts to a part, and then to a fence over it, which empties it first. `cases` names the two.
fn part_and_fence<K: Kind, P: TakingPart<K> + Drop>(
    rt: &impl Abort,
    cases: [&str; 2],
    mut part: P,
    scripts: &[&[Step]],
) {
    runs(rt, cases[0], &mut part, scripts);
    runs(rt, cases[1], &mut Fence::new(part), scripts);
}

// The memory that a part is lent has a type of its own, so each part is made by itself.
pub fn every_memory_part(rt: &impl Abort, scripts: &[&[Step]]) {
    let mut slots = [BLANK; 8];
    let mut nodes = [LOOSE; 8];
    let cases = ["memory table", "memory table under a fence"];
    part_and_fence(rt, cases, MemoryTable::new(&mut slots), scripts);
    let cases = ["linked list", "linked list under a fence"];
    part_and_fence(rt, cases, LinkedList::new(&mut nodes), scripts);
}

pub fn every_flash_part(rt: &impl Abort, scripts: &[&[Step]]) {
    let mut slots = [BLANK; 8];
    // 8 times 81 bits
    let mut bytes = [0xA5u8; 81];
    let cases = ["flash table", "flash table under a fence"];
    part_and_fence(rt, cases, FlashTable::new(&mut slots), scripts);
    let cases = ["packed flash", "packed flash under a fence"];
    part_and_fence(rt, cases, PackedFlash::new(&mut bytes), scripts);
}

pub fn every_part(rt: &impl Abort, scripts: &[&[Step]]) {
    every_memory_part(rt, scripts);
    every_flash_part(rt, scripts);
}
