//! What the rules of a site ask for: what requests are answered and what they change, and the backups that are due.
#![tactic(auto)]

mod asked;
mod backup_clients;
mod backup_room;
mod backups;
mod content;
mod deciding;
mod decision;
mod due_list;
mod last_times;
mod moments;
mod pieces;
mod refusal;
mod restores;
mod settings;
mod zone;

pub use backup_clients::{IMAGE_LIMIT, takes_all};
pub use backup_room::segment_of;
pub use content::{Content, seal_content};
pub use deciding::decide;
pub use decision::{Change, Decision, JobBody, SiteChange};
pub use due_list::due_backups;
pub use pieces::{PIECE_LIMIT, piece_count};

/// No memory was left.
pub type NoMemory = std::alloc::AllocError;
