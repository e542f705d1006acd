// From a filter's text to its leaves.
#![tactic(auto)]

pub mod leaf;
pub mod symbol;
