// What the ends of a file say of the values between them: whether some number meets an operator, and whether they rule out that a byte string does.
#![tactic(auto)]

pub mod numbers;
pub mod texts;
