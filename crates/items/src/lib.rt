// The readers of what a job file is made of: counts, numbers, steps, points and frames.
#![tactic(auto)]

mod codes;
pub mod cursor;
pub mod items;
#[cfg(test)]
mod tests;
