// Reading the records of a journal.
ghost use Rattle.std.specs.Prelude.{◌≡◌, ◌<◌, ◌^◌, ◌++◌, ◌∷◌, ℕ, suc, [], None, length, nat_eq, true, MatchOption, IfOk, IfErr};
ghost use Rattle.std.specs.List.{starts_with};
ghost use Rattle.std.specs.Int.{w32, to_be_bytes};
ghost use Rattle.pool_journal.specs.Records.{header, records, broken, reading, IsToldOf};

use crate::entry::{Entry, read_entry};
use crate::fault::JournalFault;
use site_types::FieldFault;
use std::alloc::Global;

pub const OPEN: u8 = 165;

pub const HEADER: [u8; 16] = *b"NBDESK VAULT 001";

/// An entry, with the offset of its record's gate.
#[derive(Debug, Drop)]
pub struct Placed {
    pub at: u64,
    pub entry: Entry,
}

// The body behind an open gate, and what stands behind it from the next gate on.
fn split_record(after: &[u8]) -> Option<(&[u8], &[u8])>
    ensures { MatchOption result ((n at : ℕ) → records (suc n) at (165 ∷ after.now) ≡ broken [] at) (λ p. (after.now ≡ to_be_bytes w32 (length p.0.now) ++ p.0.now ++ p.1.now) × (length p.0.now < 2 ^ 32) × (0 < length p.1.now)) }
{
    let [a, b, c, d, rest @ ..] = after else {
        return None;
    };
    let size = u32::from_be_bytes([*a, *b, *c, *d]) as usize;
    if size >= rest.len() {
        return None;
    }
    Some((&rest[..size], &rest[size..]))
}

/// The records of a journal.
#[derive(Drop)]
pub struct Records {
    pub entries: Vec<Placed>,
    /// The offset of the closed gate behind them, where none of them is broken.
    pub end: u64,
    /// The offset of the first that is broken.
    pub bad: Option<u64>,
}

// The records behind the header.
pub fn read_records(alloc: Global, bytes: &[u8]) -> Result<Records, JournalFault>
    requires long { 17 < length bytes.now }
    requires begins { starts_with nat_eq bytes.now header ≡ true }
    ensures told { IfOk result (λ r. IsToldOf bytes.now (reading bytes.now) r.entries.items r.end r.bad) }
    ensures failed { IfErr result (λ e. e ≡ JournalFault.NoMemory) }
{
    let mut entries = Vec::new(alloc);
    let mut rest = &bytes[16..];
    while let [gate, after @ ..] = rest {
        let at = (bytes.len() - rest.len()) as u64;
        if *gate != OPEN {
            return Ok(Records {
                entries,
                end: at,
                bad: None,
            });
        }
        let Some((body, next)) = split_record(after) else {
            return Ok(Records {
                entries,
                end: at,
                bad: Some(at),
            });
        };
        match read_entry(alloc, body) {
            Ok(entry) => entries.push(Placed { at, entry })?,
            Err(FieldFault::Broken(_)) => {
                return Ok(Records {
                    entries,
                    end: at,
                    bad: Some(at),
                });
            }
            Err(FieldFault::NoMemory) => return Err(JournalFault::NoMemory),
        }
        rest = next;
    }
    unreachable!()
}
