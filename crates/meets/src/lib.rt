// Whether a row meets a leaf.
#![tactic(auto)]

pub mod held;
pub mod literals;
pub mod test;
