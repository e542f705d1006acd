// Files known only by their ends, over bytes.
#![tactic(auto)]

pub mod files;
