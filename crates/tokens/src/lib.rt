// The words, signs and literals of a filter's text.
#![tactic(auto)]

pub mod decimal;
pub mod run;
pub mod token;
