//! The texts of reports: a list of lines for each, whose fields stand in their order with single spaces between them.
//!
//! Each call appends its lines to a text that is handed in, in the order of the lists that it is given, and leaves that text as it
//! was where memory runs out. Images come from the catalogue: those that are listed by an iterator over them, so that a part of
//! them is listed in the same way, and the sums on units from the catalogue itself, which keeps them.
#![tactic(auto)]

mod due;
mod images;
mod line;
mod media;
mod operations;
mod units;

pub use due::due_lines;
pub use images::image_lines;
pub use media::media_lines;
pub use operations::operation_lines;
pub use units::{StoredSize, stats_lines, unit_lines};

/// No memory was left.
pub type NoMemory = std::alloc::AllocError;

#[cfg(test)]
mod tests;
