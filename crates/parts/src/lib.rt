// The parts of the store: where versions are kept, in memory that the caller lends. Each has the meaning that the crate `version` gives a part.
#![tactic(auto)]

mod packed;
mod rows;
mod table;

// A sorted table, as memory part and as flash part.
pub use table::{FlashTable, MemoryTable, SortedTable};
pub use version::{Flash, Memory};

// Records of 81 bits in bytes, as flash part.
pub use packed::PackedFlash;

// A list linked by index, as memory part, and the nodes that it is lent.
pub use linked::{LinkedList, Node};

// A layer over any of them, which answers by itself what lies outside the points held.
pub use layers::Fence;
