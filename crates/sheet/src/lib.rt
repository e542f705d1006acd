// Sheets and value records, read where they lie.
#![tactic(auto)]

pub mod chain;
pub mod content;
pub mod head;
pub mod literal;
pub mod literals;
pub mod parts;
pub mod reader;
pub mod records;
pub mod sheet;
pub mod value;
