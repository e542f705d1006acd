// What one leaf of a filter is answered, by a row or by partition values.
#![tactic(auto)]

pub mod asked;
pub mod leaf;
pub mod number;
pub mod text;
