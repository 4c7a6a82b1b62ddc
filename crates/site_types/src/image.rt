use crate::{BackupId, ListOf, Name, OpState};

/// What a backup takes: all selected files, those changed since the last backup, or those changed since the last full one.
#[derive(Clone, Copy, Debug)]
pub enum Kind {
    Full,
    Differential,
    Cumulative,
}

/// The image on which another one builds, by its time in seconds since 1970-01-01T00:00:00Z.
#[derive(Clone, Copy, Debug)]
pub enum Base {
    None,
    Time(u64),
}

/// When a copy expires: by its operation's retention, at a moment, or never.
#[derive(Clone, Copy, Debug)]
pub enum Expiry {
    Rule,
    At(u64),
    Never,
}

/// A kept copy of an image.
#[derive(Debug, Drop)]
pub struct CopyRecord {
    /// One more than the index of the operation that made it.
    pub number: u8,
    pub unit: Name,
    /// The moment at which it was complete, in seconds since 1970-01-01T00:00:00Z.
    pub completed: u64,
    pub expiry: Expiry,
}

/// What the catalogue has of an image.
#[derive(Debug, Drop)]
pub struct ImageRecord {
    pub id: BackupId,
    pub policy: Name,
    pub schedule: Name,
    pub kind: Kind,
    pub base: Base,
    pub lifecycle: Name,
    /// The version of the lifecycle under which the image was made.
    pub version: u16,
    /// The number of its bytes.
    pub length: u64,
    /// One state for each operation of that version.
    pub states: ListOf<OpState>,
    /// The kept copies, in order of number.
    pub copies: ListOf<CopyRecord>,
    /// The number of the primary copy, from which it is restored by default.
    pub primary: u8,
    pub active: bool,
}
