//! The desk's index of its journal: the site, the catalogue of images, and where their bytes stand, as the journal's records make
//! them.
//!
//! An index is that of a ledger. An opening replays the journal's records one by one, and a change of the site moves the index to
//! the ledger after it.
#![tactic(auto)]

mod change;
mod image;
mod index;
mod lines;
mod load;
mod ready;
mod replaying;
mod setting;

pub use change::prepare_change;
pub use image::record_of;
pub use index::Index;
pub use lines::{line_of, stage_lines};
pub use load::prepare_load;
pub use ready::Ready;
pub use replaying::{Replayed, admit_image, replay, unit_for};
pub use setting::is_setting;
