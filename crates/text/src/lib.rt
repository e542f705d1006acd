// What program `weighpick` prints.
#![tactic(auto)]

pub mod decimal;
pub mod hexadecimal;
pub mod line;
pub mod output;
pub mod program;
