//! The journal of a vault: one record for each change, on the disk before it is acknowledged.
//!
//! A record is written by two writes, each with its sync: first what stands behind its gate, then the byte that opens the gate. So a stop leaves the gate closed or the whole record behind it, and which of the two is one byte. An opening begins with a sync, since what a stop left may read otherwise than it stands on the disk: nothing is told of a record before it can't be lost. It is so from the first version on, so that no later one has to change what lies on disks.
#![tactic(auto)]

mod entry;
mod fault;
mod fields;
mod journal;
mod open;
mod records;
mod room;
mod segments;
mod size;
mod spelling;

pub use entry::{Entry, WholeImage};
pub use fault::JournalFault;
pub use journal::{Journal, Staged};
pub use open::Opened;
pub use records::Placed;
pub use room::Room;
pub use segments::{NewSegment, Segments};
