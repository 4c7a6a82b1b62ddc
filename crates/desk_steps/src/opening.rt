// What a vault's journal and pools have, at an opening.
ghost use Rattle.std.specs.Prelude.{◌≡◌, Some, IfErr, IfOk};
ghost use Rattle.vault_disk.specs.Disk.{IsSame};
ghost use Rattle.vault_disk.specs.Steps.{Rose};
ghost use Rattle.desk_model.specs.State.{State};
ghost use Rattle.vault_ledger.specs.Ledger.{Ledger, journal_reads, stands};
ghost use Rattle.desk_index.specs.Index.{IsIndexOf};
ghost use Rattle.desk_steps.specs.Openings.{IsFaultOf, IsFound, KeepsJournal, Opens};

use desk_index::{Index, replay};
use pool_journal::{Journal, JournalFault};
use std::alloc::Global;
use vault_disk::Vault;

/// A journal and the index of the ledger that it says.
#[derive(Drop)]
pub struct Opened {
    pub journal: Journal,
    pub index: Index,
}

/// Opens a vault that a stop may have left: syncs and reads its journal, replays it, and syncs the files of the pools that hold
/// pieces.
///
/// NotAVault comes exactly where the journal reads as none, with the offset of the first of its records that is broken or doesn't
/// fit, or at which its header is wrong.
pub fn open<V: Vault>(alloc: Global, vault: &mut V) -> Result<Opened, JournalFault>
    ensures known { IfOk result (λ o. (l : Ledger) × IsIndexOf l o.index) }
    ensures found { (V.disk vault.old).tells → IfOk result (λ o. IsFound (V.disk vault.old) (V.disk vault.new) o.journal o.index) }
    ensures stops { (s : State) → (V.disk vault.old).tells → stands (V.disk vault.old).seen ≡ Some s → Opens s (V.disk vault.old) (V.disk vault.new) }
    // Also of a journal that is no vault's nothing is lost.
    ensures journal { (V.disk vault.old).tells → KeepsJournal (V.disk vault.old) (V.disk vault.new) }
    ensures not_a_vault { (V.disk vault.old).tells → IfErr result (IsFaultOf (journal_reads (V.disk vault.old).seen)) }
    ensures failed { IfErr result (λ fault. fault ≡ JournalFault.DiskFault → Rose (V.disk vault.old).faults (V.disk vault.new).faults) }
    ensures same { IsSame (V.disk vault.old) (V.disk vault.new) }
{
    let found = Journal::open_file(alloc, vault)?;
    let replayed = replay(alloc, &found.entries)?;
    if let Some(offset) = replayed.bad {
        return Err(JournalFault::NotAVault { offset });
    }
    if let Some(offset) = found.bad {
        return Err(JournalFault::NotAVault { offset });
    }
    replayed.index.storage.sync_pools(vault)?;
    Ok(Opened {
        journal: found.journal,
        index: replayed.index,
    })
}
