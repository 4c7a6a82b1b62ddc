//! Calls of the crates below the program that no request makes yet, and what no clause says of the forms in memory. It has tests
//! alone, so that no crate below is proved with them.
#![tactic(auto)]

#[cfg(test)]
mod disk_tests;
#[cfg(test)]
mod due_tests;
#[cfg(test)]
mod image_tests;
