// A memory part that is a list linked by index, in nodes that the caller lends.
#![tactic(auto)]

mod list;
mod node;

pub use list::LinkedList;
pub use node::Node;
