// What a leaf and a row are answered: the steps, and their result written into a lent buffer.
#![tactic(auto)]

pub mod answer;
pub mod leaf;
pub mod number;
pub mod project;
pub mod string;
pub mod value;
