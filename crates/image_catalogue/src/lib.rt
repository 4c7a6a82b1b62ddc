//! The catalogue of images: what is known of each, by client and time, and the bytes that their kept copies have on each unit.
#![tactic(auto)]

mod catalogue;
mod latest_first;
mod unit_bytes;

pub use catalogue::Catalogue;
pub use latest_first::LatestFirst;

/// No memory was left.
pub type NoMemory = std::alloc::AllocError;
