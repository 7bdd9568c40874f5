// The scalars that are the machine's own: Real, an f64, and Count, an i32 that wraps.
#![tactic(auto)]

pub mod count;
pub mod real;
pub mod types;
