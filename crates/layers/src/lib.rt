// Layers: parts that stand on any other part, and have its meaning.
#![tactic(auto)]

mod fence;

// It answers by itself what lies outside the points held.
pub use fence::Fence;
