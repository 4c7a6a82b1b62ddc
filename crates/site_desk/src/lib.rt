//! The desk over a vault: requests are answered as the model answers them, and what was answered outlives a stop.
#![tactic(auto)]

mod desk;
mod open;
mod step;

pub use desk::Desk;
