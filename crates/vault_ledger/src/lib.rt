//! What a vault's journal says, and what it stands for with its pools.
//!
//! A pool follows the ledger of its unit: at an opening it takes over the segments that the journal records, and the slots that kept
//! copies name; at a seal the slots of the copy become live.
#![tactic(auto)]

mod adopting;
mod copies;
mod keeping;
mod reading;
mod sealing;
mod soundness;
mod storage;
mod storing;
mod syncing;
mod taking;
mod unit_pools;

pub use adopting::{adopt, name_pieces};
pub use copies::Copies;
pub use keeping::keep_pieces;
pub use sealing::seal_backup;
pub use soundness::vaults_stand_sound;
pub use storage::Storage;
