// Whether a file known only by its ends is to be skipped, to be read, or taken whole.
#![tactic(auto)]

pub mod file;
pub mod verdict;
