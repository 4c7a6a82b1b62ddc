//! Retention: which copies may go, and what a cleanup expires.
//!
//! A cleanup looks at each image once, and sorts references to what may go: a catalogue has up to a million images, and what
//! stays is neither copied nor moved.
#![tactic(auto)]

mod cleanup;
mod eligibility;
mod kept;
mod marks;

pub use cleanup::{Expired, cleanup_list};
pub use eligibility::eligible;
pub use marks::{marks_reached, used};

/// No memory was left.
pub type NoMemory = std::alloc::AllocError;
