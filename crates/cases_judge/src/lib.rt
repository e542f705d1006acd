// What judges a case, for the program `cases`.
#![tactic(auto)]

pub mod judge;
