// What the transforms are made of: the calendar, moments and truncation (src/transform/temporal.rs, truncate.rs).
#![tactic(auto)]

pub mod calendar;
pub mod temporal;
pub mod truncate;
