// Column lists, and the values that stand beside them.
#![tactic(auto)]

pub mod cells;
pub mod list;
pub mod name;
