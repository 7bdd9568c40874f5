// The text that shows a job, written into memory that was asked for before the file was looked at.
#![tactic(auto)]

mod lines;
mod numbers;
mod page;
pub mod show;
pub mod space;
