//! The pool and its copies over a vault in memory: values from outside, and that calls succeed. It has tests alone, so that no crate
//! below is proved with them.
#![tactic(auto)]

#[cfg(test)]
mod tests;
#[cfg(test)]
mod trial;
