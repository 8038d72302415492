// Versions, their order, and what a part of the store means.
#![tactic(auto)]

mod kind;
mod meaning;
mod order;
mod part;
mod scan;
mod types;

// What a version is, its place in version order, and why a part does not take one.
pub use types::{NotTaken, Place, Version};

// What every part answers, and how it takes a version.
pub use part::{Part, TakingPart, taking};

// What a part serves as: a memory part takes a version at any place, a flash part one behind its last.
pub use kind::{Flash, Kind, Memory};

// The look of a scan, for every part.
pub use scan::look;

// The newest version of a point, and whether a version may be taken, from what is found at its place on.
pub use order::{is_free, of_point};

// What all this means, proved.
pub use meaning::answers_stand;
