// One summary for two files.
#![tactic(auto)]

pub mod pool;
