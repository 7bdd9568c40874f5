// A job file: the parts of a job, which bytes stand for it, and what can be wrong with them.
// specs/Format.antt is the format, as a relation between a job and its bytes; proofs/ shows that every file has one answer.
#![tactic(auto)]

pub mod faults;
pub mod notice;
pub mod parts;
