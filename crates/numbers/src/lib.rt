// The steps of the projections for a literal of a whole-number or time column (src/spec/transform.rs).
#![tactic(auto)]

pub mod steps;
