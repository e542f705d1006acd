// Filters, read and answered in one pass over their text.
#![tactic(auto)]

pub mod join;
pub mod leaf;
pub mod parse;
pub mod read;
pub mod request;
pub mod skim;
