use crate::{Name, Windows};

/// How long a copy is kept.
#[derive(Clone, Copy, Debug)]
pub enum Retention {
    /// So many seconds from the image's time on.
    Fixed(u64),
    Infinite,
    /// Until no other copy is still to be made of it.
    AfterCopy,
    /// So many seconds from its completion on, and then until its unit wants the room.
    Capacity(u64),
}

/// An operation of a lifecycle: a backup, or a duplication of the copy that an earlier operation made.
#[derive(Debug, Drop)]
pub struct Operation {
    pub backup: bool,
    /// The index of the operation whose copy is read; 0 for a backup, which reads none.
    pub source: u8,
    /// The unit on which the copy is stored.
    pub unit: Name,
    pub retention: Retention,
    /// When the operation may start.
    pub windows: Windows,
}

/// How far an operation has come for an image.
#[derive(Clone, Copy, Debug)]
pub enum OpState {
    Waiting,
    Complete,
    Cancelled,
}
