// Fields of up to 32 bits at any bit place of lent bytes, most significant bit first.
// Inner code: its calls ask what their proved callers show, and refuse nothing.
#![tactic(auto)]

mod read;
mod signed;
mod types;
mod write;

// A field of a head or a record, read and written as a number or as a signed value: no other bit changes.
pub use types::Field;

// A signed value as the number that stands for it in a field, and back.
pub use signed::{from_twos, to_twos};
