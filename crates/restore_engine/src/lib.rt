//! What a backup builds on, and which images a restore reads: the reference of a backup, and the chain of images at a moment.
//!
//! Both walk over one client's images from the latest on, and look at no image of another client.
#![tactic(auto)]

mod chains;
mod references;

pub use chains::{ChainFault, chain_at};
pub use references::reference;

/// No memory was left.
pub type NoMemory = std::alloc::AllocError;
