//! The segment pool of a unit: distinct pieces, each in a slot of the unit's pool file.
//!
//! A piece is found by its digest and confirmed by comparing bytes, so nothing here rests on a digest having no collision: slots of
//! equal digests are all compared. What is known of a slot stands in memory alone, as the journal records it; the file holds
//! the bytes of pieces and nothing else. A slot is held while it is live or pinned, and a held slot is never written. Memory is
//! taken by `adopt` and `reserve` alone, so a caller that reserves room beforehand meets no want of memory once it has begun to write.
#![tactic(auto)]

mod cutting;
mod fault;
mod fingerprint;
mod free_runs;
mod index;
mod pieces;
mod pool;
mod reading;
mod slot;
mod table;

pub use cutting::cut;
pub use fault::{PoolFault, ReadTrouble};
pub use fingerprint::{Fingerprint, Sha256Print};
pub use pieces::Cut;
pub use pool::Pool;
pub use slot::{HeldSlot, Slot};

/// Memory ran out.
pub type NoMemory = std::alloc::AllocError;
