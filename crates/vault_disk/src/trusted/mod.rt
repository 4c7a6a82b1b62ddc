//! The adapters over real things. No contract can say what a file, a stream or the clock gives or takes, so a body here that did less would still be proved: each file says what is trusted of it, and the tests of the built program show it.

mod folder_machine;
mod standard_source;
mod system_clock;
mod told_input;

pub use folder_machine::FolderMachine;
pub use standard_source::StandardSource;
pub use system_clock::SystemClock;
pub use told_input::ToldInput;
