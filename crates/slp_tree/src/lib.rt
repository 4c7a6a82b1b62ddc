//! Storage lifecycles: trees of operations that images follow, their versions, and the operations that are due; and lists by
//! name, in which lifecycles and what else a site has stand.
#![tactic(auto)]

mod due;
mod lifecycles;
pub mod named;
mod rules;
mod slp;

pub use due::{DueOp, due_ops};
pub use lifecycles::Lifecycles;
pub use slp::{Slp, SlpFault};

/// No memory was left.
pub type NoMemory = std::alloc::AllocError;

#[cfg(test)]
mod tests;
