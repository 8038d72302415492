// A version in a chain, and a gap between two that stand next to each other there.
ghost use Rattle.std.specs.Prelude.{◌≡◌};

use version::Version;

// A version, with the index of the one behind it, if any.
#[derive(Clone, Copy, PartialEq, Eq, Debug)]
pub struct Node {
    pub version: Version,
    pub next: Option<u16>,
}

impl Node {
    // No version: what memory that is to be lent to a list may be filled with.
    pub const BLANK: Node = Node {
        version: Version::BLANK,
        next: None,
    };
}

// The indices of the nodes on both sides of a place, if any.
#[derive(Clone, Copy)]
pub(crate) struct Gap {
    pub before: Option<u16>,
    pub after: Option<u16>,
}

impl Gap {
    // The node of a version that goes into the gap: it leads to what stands behind.
    pub(crate) fn node(self, version: Version) -> Node
        ensures { result ≡ record { version = version; next = self.after } }
    {
        Node {
            version,
            next: self.after,
        }
    }
}
