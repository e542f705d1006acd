// Sheets and value records, written into a lent buffer.
#![tactic(auto)]

pub mod answer;
pub mod write;
