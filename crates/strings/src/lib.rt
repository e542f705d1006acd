// The steps of the projections for a literal of a String or Binary column (src/spec/transform.rs).
#![tactic(auto)]

pub mod steps;
