// A version, its place in version order, and why a part does not take one.

// One writing of a point, under its number; no version has the number 0.
#[derive(Clone, Copy, PartialEq, Eq, Debug)]
pub struct Version {
    pub point: u16,
    pub number: u32,
    // none if the point was removed
    pub value: Option<i32>,
}

// A place in version order, whether or not a version stands there. The lesser of two places stands before the other.
#[derive(Clone, Copy, PartialEq, Eq, Debug)]
pub struct Place {
    pub point: u16,
    pub number: u32,
}

// Why a part did not take a version.
#[derive(Clone, Copy, PartialEq, Eq, Debug)]
pub enum NotTaken {
    OutOfPlace,
    Full,
}

impl Version {
    // No version: what memory that is to be lent to a part may be filled with.
    pub const BLANK: Version = Version {
        point: 0,
        number: 0,
        value: None,
    };
}
