// Opening a journal.
//
// The opening of a new vault writes its header, and no other opening writes. A file of exactly the header and one closed gate
// is begun anew too, as each of at most 17 bytes is: it needs no case of its own, and a stop in it leaves at most 17 bytes
// again. The file is read whole, which is the shortest proof; the contract speaks of the file's bytes alone, so a reader that
// takes them piece by piece would meet it too.
ghost use Rattle.std.specs.Prelude.{◌≡◌, ◌≤◌, ◌<◌, length, nat_eq, false, IfOk, IfErr, IsErrOf, MatchResult};
ghost use Rattle.std.specs.List.{starts_with, common_prefix_len};
ghost use Rattle.vault_disk.specs.Disk.{IsSame};
ghost use Rattle.vault_disk.specs.Steps.{HasCause, IsDurable, LookedAround, Rose};
ghost use Rattle.pool_journal.specs.Records.{header, reading, placed, IsToldOf};
ghost use Rattle.pool_journal.specs.Stops.{IsOpened, IsForeign, Leaves, OpenStops, SameReading, Begins};

use crate::fault::JournalFault;
use crate::journal::Journal;
use crate::records::{HEADER, Placed, read_records};
use std::alloc::Global;
use vault_disk::{Failed, Vault, read_whole, write_durably};

// The header, and a closed gate.
const FIRST: [u8; 17] = *b"NBDESK VAULT 001\0";

/// What an opening found.
#[derive(Drop)]
pub struct Opened {
    pub journal: Journal,
    /// The entries in order, up to the first record that is broken.
    pub entries: Vec<Placed>,
    /// The offset of the gate of the first record that ends past the file or spells no entry.
    pub bad: Option<u64>,
}

impl Journal {
    /// Reads the journal of a vault that a stop may have left, after a sync of its file. A file of at most 17 bytes is begun
    /// anew, whatever it holds.
    ///
    /// NotAVault comes exactly where the file is longer and differs from the header, with the first offset at which it does.
    pub fn open_file<V: Vault>(alloc: Global, vault: &mut V) -> Result<Opened, JournalFault>
        ensures found { (V.disk vault.old).tells → IfOk result (λ o. IsOpened (reading ((V.disk vault.old).seen 0)) (V.disk vault.new) o.journal o.entries.items o.bad) }
        ensures not_a_vault { (V.disk vault.old).tells → IfErr result (IsForeign (reading ((V.disk vault.old).seen 0))) }
        ensures stops { (V.disk vault.old).tells → OpenStops (V.disk vault.old) (V.disk vault.new) }
        // Of a vault that isn't new nothing is written.
        ensures looked { (V.disk vault.old).tells → 17 < length ((V.disk vault.old).seen 0) → LookedAround (V.disk vault.old) (V.disk vault.new) }
        ensures same { IsSame (V.disk vault.old) (V.disk vault.new) }
        ensures failed { IsErrOf result JournalFault.DiskFault → Rose (V.disk vault.old).faults (V.disk vault.new).faults }
    {
        vault.sync(0)?;
        Journal::read_file(alloc, vault)
    }

    // Reads the journal of a file that a stop leaves as it is read.
    fn read_file<V: Vault>(alloc: Global, vault: &mut V) -> Result<Opened, JournalFault>
        ensures found { (V.disk vault.old).tells → IsDurable 0 (V.disk vault.old) → IfOk result (λ o. IsOpened (reading ((V.disk vault.old).seen 0)) (V.disk vault.new) o.journal o.entries.items o.bad) }
        ensures not_a_vault { (V.disk vault.old).tells → IfErr result (IsForeign (reading ((V.disk vault.old).seen 0))) }
        ensures stops { (V.disk vault.old).tells → IsDurable 0 (V.disk vault.old) → Leaves (SameReading (V.disk vault.old)) (V.disk vault.old) (V.disk vault.new) }
        ensures looked { (V.disk vault.old).tells → 17 < length ((V.disk vault.old).seen 0) → LookedAround (V.disk vault.old) (V.disk vault.new) }
        ensures same { IsSame (V.disk vault.old) (V.disk vault.new) }
        ensures failed { IsErrOf result JournalFault.DiskFault → Rose (V.disk vault.old).faults (V.disk vault.new).faults }
    {
        let bytes = read_whole(alloc, vault, 0)?;
        if bytes.len() <= 17 {
            begin(vault)?;
            return Ok(Opened {
                journal: Journal::at(16),
                entries: Vec::new(alloc),
                bad: None,
            });
        }
        if !bytes.starts_with(&HEADER) {
            return Err(JournalFault::NotAVault {
                offset: first_difference(&bytes, &HEADER),
            });
        }
        let records = read_records(alloc, &bytes)?;
        Ok(Opened {
            journal: Journal::at(records.end),
            entries: records.entries,
            bad: records.bad,
        })
    }
}

fn first_difference(bytes: &[u8], header: &[u8]) -> u64
    ensures { result ≡ common_prefix_len nat_eq bytes.now header.now }
{
    let shorter = bytes.len().min(header.len());
    for at in 0..shorter {
        if bytes[at] != header[at] {
            return at as u64;
        }
    }
    shorter as u64
}

fn begin<V: Vault>(vault: &mut V) -> Result<(), Failed>
    ensures begins { (V.disk vault.old).tells → length ((V.disk vault.old).seen 0) ≤ 17 → IsDurable 0 (V.disk vault.old) → Begins (V.disk vault.old) (V.disk vault.new) result }
    ensures same { IsSame (V.disk vault.old) (V.disk vault.new) }
    ensures cause { HasCause (V.disk vault.old).faults (V.disk vault.new).faults result }
{
    vault.cut(0, 0)?;
    write_durably(vault, 0, 0, &FIRST)
}
