//! The text of a session: cut into the requests of its lines, with their payloads, while it is read from a source.
//!
//! How a text is cut has to do with no vault and no desk, so it stands in a crate of its own: its definitions are read by themselves, and it needs only a source.
#![tactic(auto)]

mod ahead;
mod line;
mod payload;
mod seek;
mod session;

pub use session::{Asked, Next, SessionText};

/// No memory was left.
pub type NoMemory = std::alloc::AllocError;
