// The example of docs/PARTS.md.
use parts::{Fence, Memory, MemoryTable};
use std::test::Fail;
use version::{NotTaken, Part, Place, TakingPart, Version};

const LEVEL: Version = Version {
    point: 7,
    number: 1,
    value: Some(230),
};

// Keeps a level in a memory under a fence, and asks for it, and for a point that lies outside the points held, so that the memory is not asked.
fn kept<P: TakingPart<Memory> + Drop>(
    memory: P,
) -> Result<(Option<Version>, Option<Version>), NotTaken> {
    let mut fence = Fence::new(memory);
    fence.take(LEVEL)?;
    let inside = Place {
        point: 7,
        number: 1,
    };
    let outside = Place {
        point: 9,
        number: 1,
    };
    Ok((fence.newest(inside), fence.newest(outside)))
}

#[test]
fn a_level_is_kept_and_found(rt: HostRuntime) -> Result<(), Fail> {
    let mut slots = [Version::BLANK; 64];
    let (level, nothing) = kept(MemoryTable::new(&mut slots))?;
    assert_eq!(rt; level, Some(LEVEL));
    assert_eq!(rt; nothing, None);
    Ok(())
}
