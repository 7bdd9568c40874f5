// Tests of the reader and of its refusals, run on files that a shop could meet.
#![tactic(auto)]

#[cfg(test)]
mod tests;
