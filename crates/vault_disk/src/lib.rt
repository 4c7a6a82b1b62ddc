//! The outside of the desk, as the layers above see it: a vault of numbered files with what reads give and what a stop may leave, a machine round it that sends bytes, a source of bytes and a clock.
//!
//! What a call does to content is promised by an object that tells, and each object in memory does. The adapters over real things, in `trusted`, promise nothing but their counts of faults, since no contract can say what a disk does. Sources and clocks also have `reliable`, and clocks `may_give`, so that a clause can say of a run over memory that it meets no fault and which moment it takes.
#![tactic(auto)]

mod call;
mod clock;
mod contents;
mod durable;
mod faults;
mod folder_path;
mod for_references;
mod kept;
mod machine;
mod memory;
mod memory_clock;
mod memory_source;
mod pieces;
mod recording;
mod retried;
mod source;
mod stop;
mod told;
mod trusted;
mod vault;
mod whole;

pub use call::{Bytes, Call};
pub use clock::Clock;
pub use durable::{cut_durably, write_durably};
pub use machine::Machine;
pub use memory::MemoryMachine;
pub use memory_clock::MemoryClock;
pub use memory_source::MemorySource;
pub use source::Source;
pub use trusted::{FolderMachine, StandardSource, SystemClock, ToldInput};
pub use vault::{Failed, Vault};
pub use whole::{ReadFault, read_fully, read_whole, zeros};

/// Memory ran out.
pub type NoMemory = std::alloc::AllocError;
