// What every crate above shares: column types, transforms and refusals with document 01's numbers,
// little-endian words, UTF-8, letters and digits, and the order of byte strings.
#![tactic(auto)]

pub mod characters;
pub mod datatypes;
pub mod error;
pub mod order;
pub mod transform;
pub mod utf8;
pub mod words;
