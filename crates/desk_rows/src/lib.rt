//! Runs of the program over the memory forms: what no clause of `run` says. It has tests alone, so that no crate below is proved
//! with them.
#![tactic(auto)]

#[cfg(test)]
mod tests;
