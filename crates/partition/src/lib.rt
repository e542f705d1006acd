// The partition value of a row: which transform a column takes, and what it gives (src/transform/mod.rs).
#![tactic(auto)]

pub mod bytes;
pub mod number;
pub mod result;
