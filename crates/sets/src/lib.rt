// The set of a leaf's literals under a transform, ascending and without repeats: the Rust's `project_set_expr` (src/spec/transform.rs).
// The scope that binds us says how: numbers are collected in a zeroed array of 128, `[0; HOLDS_LIMIT]` (`NumberSet` of crate expr), Strings and Binaries as record
// numbers with the sizes of their beginnings (`ContentParts` of crate sheet). So there is no ArrayVec here, and no array of slices.
#![tactic(auto)]

pub mod number;
pub mod string;
