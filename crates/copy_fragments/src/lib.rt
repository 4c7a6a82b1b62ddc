//! Copies of byte strings as lists of the slots in which a pool holds their pieces, and reads of them.
//!
//! Reading into a slice takes no memory, nor does a check of a whole copy. A piece is handed on only where all of its bytes were read
//! and have its recorded digest.
#![tactic(auto)]

mod copy_map;
mod piece_place;
mod placing;
mod whole_copy;

pub use copy_map::{CopyMap, piece_count};
pub use placing::{place, unpin_each};
pub use whole_copy::CopyFault;
