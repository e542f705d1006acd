// The questions; the steps that answer them are definitions here, and code in `numbers` and `strings` (src/spec/transform.rs).
#![tactic(auto)]

pub mod question;
