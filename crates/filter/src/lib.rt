// The routines of filters.
#![tactic(auto)]

pub mod filter;
