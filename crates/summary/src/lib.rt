// Summaries of files, read where they lie.
#![tactic(auto)]

pub mod checks;
pub mod reader;
pub mod summary;
