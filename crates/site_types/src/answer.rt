use crate::wording::{
    above_high, chain_broken, damaged, in_use, joined, numbered, short, too_many, unit_full,
};
use crate::{BackupId, Name, NoMemory, Text};
use std::alloc::Global;

/// An answer to a request, in the order of their numbers.
#[derive(Debug, Drop)]
pub enum Answer {
    /// The request was carried out. Its body is what it is answered.
    Done {
        body: Text,
    },
    /// No memory was left, and nothing was done.
    OutOfMemory,
    /// The word with this index, from 0, is bad.
    BadRequest {
        index: u64,
    },
    Exists {
        name: Text,
    },
    Unknown {
        name: Text,
    },
    InUse {
        name: Text,
        user: Text,
    },
    /// The rule of lifecycles with this number is broken.
    BadLifecycle {
        rule: u8,
    },
    Inactive {
        name: Text,
    },
    WindowClosed {
        name: Text,
    },
    /// The high mark of the unit is reached. Lengths are in bytes, here and below.
    AboveHigh {
        unit: Name,
        used: u64,
        capacity: u64,
    },
    UnitFull {
        unit: Name,
        used: u64,
        length: u64,
        capacity: u64,
    },
    /// The operation with this index is unfinished.
    Needed {
        operation: u8,
    },
    Short {
        position: u64,
        length: u64,
    },
    NoJob {
        number: u64,
    },
    Unaligned {
        so_far: u64,
    },
    /// A limit is reached.
    TooMany {
        kind: Text,
        count: u64,
        limit: u64,
    },
    /// The chain of an image lacks the one with this id.
    ChainBroken {
        id: BackupId,
    },
    /// A piece has another digest than was recorded.
    Damaged {
        recorded: [u8; 32],
        found: [u8; 32],
    },
    /// A call of the vault failed. The request may have been carried out or not.
    DiskFault,
    ReadFault,
    SendFault,
    ClockFault,
    /// The vault's journal is broken at this offset.
    NotAVault {
        offset: u64,
    },
    /// The stream breaks its grammar at this offset.
    BadStream {
        offset: u64,
    },
}

impl Answer {
    ghost use Rattle.std.specs.Prelude.{◌≡◌, ◌++◌, IfOk, OnOk, OnErr, MatchOption};
    ghost use Rattle.site_types.specs.Answers.{number_of, text_of, NeedsMemory};

    /// Its number, which is the status of a single request.
    pub fn number(&self) -> u8
        ensures { result ≡ number_of self.now }
    {
        match self {
            Answer::Done { .. } => 0,
            Answer::OutOfMemory => 1,
            Answer::BadRequest { .. } => 2,
            Answer::Exists { .. } => 3,
            Answer::Unknown { .. } => 4,
            Answer::InUse { .. } => 5,
            Answer::BadLifecycle { .. } => 6,
            Answer::Inactive { .. } => 7,
            Answer::WindowClosed { .. } => 8,
            Answer::AboveHigh { .. } => 9,
            Answer::UnitFull { .. } => 10,
            Answer::Needed { .. } => 11,
            Answer::Short { .. } => 12,
            Answer::NoJob { .. } => 13,
            Answer::Unaligned { .. } => 14,
            Answer::TooMany { .. } => 15,
            Answer::ChainBroken { .. } => 16,
            Answer::Damaged { .. } => 17,
            Answer::DiskFault => 18,
            Answer::ReadFault => 19,
            Answer::SendFault => 20,
            Answer::ClockFault => 21,
            Answer::NotAVault { .. } => 22,
            Answer::BadStream { .. } => 23,
        }
    }

    /// Its text, where that stands ready: the body of what was done, and the text of a fault or of want of memory.
    pub fn ready_text(&self) -> Option<&[u8]>
        ensures { MatchOption result (NeedsMemory self.now) (λ t. t.now ≡ text_of self.now) }
    {
        match self {
            Answer::Done { body } => Some(body.bytes()),
            Answer::OutOfMemory => Some(b"out of memory\n"),
            Answer::DiskFault => Some(b"disk fault\n"),
            Answer::ReadFault => Some(b"read fault\n"),
            Answer::SendFault => Some(b""),
            Answer::ClockFault => Some(b"clock fault\n"),
            _ => None,
        }
    }

    /// Appends its text, or leaves `out` as it was.
    pub fn write_text(&self, alloc: Global, out: &mut Vec<u8>) -> Result<(), NoMemory>
        ensures written { OnOk result (out.new.items ≡ out.old.items ++ text_of self.now) }
        ensures unchanged { OnErr result (out.new.items ≡ out.old.items) }
    {
        if let Some(text) = self.ready_text() {
            return out.extend_from_slice(text);
        }
        let text = self.made_text(alloc)?;
        out.extend_from_slice(&text)
    }

    fn made_text(&self, alloc: Global) -> Result<Vec<u8>, NoMemory>
        ensures { IfOk result (λ v. v.items ≡ text_of self.now) }
    {
        match self {
            Answer::Done { body } => body.bytes().to_vec(alloc),
            Answer::OutOfMemory => b"out of memory\n".to_vec(alloc),
            Answer::BadRequest { index } => numbered(alloc, b"bad request at ", *index, b"\n"),
            Answer::Exists { name } => joined(alloc, name.bytes(), b" exists\n"),
            Answer::Unknown { name } => joined(alloc, name.bytes(), b" unknown\n"),
            Answer::InUse { name, user } => in_use(alloc, name.bytes(), user.bytes()),
            Answer::BadLifecycle { rule } => {
                numbered(alloc, b"rule ", u64::from(*rule), b" broken\n")
            }
            Answer::Inactive { name } => joined(alloc, name.bytes(), b" inactive\n"),
            Answer::WindowClosed { name } => joined(alloc, name.bytes(), b" window closed\n"),
            Answer::AboveHigh {
                unit,
                used,
                capacity,
            } => above_high(alloc, unit.bytes(), *used, *capacity),
            Answer::UnitFull {
                unit,
                used,
                length,
                capacity,
            } => unit_full(alloc, unit.bytes(), *used, *length, *capacity),
            Answer::Needed { operation } => numbered(
                alloc,
                b"operation ",
                u64::from(*operation),
                b" unfinished\n",
            ),
            Answer::Short { position, length } => short(alloc, *position, *length),
            Answer::NoJob { number } => numbered(alloc, b"no job ", *number, b"\n"),
            Answer::Unaligned { so_far } => { numbered(alloc, b"unaligned after ", *so_far, b"\n") }
            Answer::TooMany { kind, count, limit } => {
                too_many(alloc, kind.bytes(), *count, *limit)
            }
            Answer::ChainBroken { id } => chain_broken(alloc, id),
            Answer::Damaged { recorded, found } => damaged(alloc, recorded, found),
            Answer::DiskFault => b"disk fault\n".to_vec(alloc),
            Answer::ReadFault => b"read fault\n".to_vec(alloc),
            Answer::SendFault => b"".to_vec(alloc),
            Answer::ClockFault => b"clock fault\n".to_vec(alloc),
            Answer::NotAVault { offset } => numbered(alloc, b"not a vault at ", *offset, b"\n"),
            Answer::BadStream { offset } => numbered(alloc, b"bad stream at ", *offset, b"\n"),
        }
    }
}
