//! What each request does over an index, a journal and a vault, and what an opening finds.
//!
//! Each call speaks of the ledger whose index it is given: what is answered is the model's over the ledger's state, and a stop
//! leaves the state before or after.
#![tactic(auto)]

mod backup;
mod carrying;
mod chain;
mod changing;
mod opening;
mod reading;
mod restoring;

pub use carrying::carry_out;
pub use opening::{Opened, open};
