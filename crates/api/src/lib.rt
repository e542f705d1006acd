// The routines over bytes.
#![tactic(auto)]

pub mod holds;
pub mod literal;
pub mod project;
