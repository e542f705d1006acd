// Operators of column predicates (src/expr/mod.rs), sets of numbers, and the tests of one value against one literal.
#![tactic(auto)]

pub mod operator;
pub mod set;
pub mod test;
