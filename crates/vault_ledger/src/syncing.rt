// The sync of the pools' files, at an opening.
ghost use Rattle.std.specs.Prelude.{◌≡◌, ℕ, Some, OnErr, OnOk};
ghost use Rattle.vault_disk.specs.Disk.{IsSame};
ghost use Rattle.vault_disk.specs.Steps.{IsDurable, LookedAround, Rose};
ghost use Rattle.segment_pool.specs.Slots.{held};
ghost use Rattle.segment_pool.specs.declared.slot.Slot.{Slot};
ghost use Rattle.vault_ledger.specs.Keeping.{KeepsLive};
ghost use Rattle.vault_ledger.specs.Ledger.{Ledger};
ghost use Rattle.vault_ledger.specs.Storage.{Follows};

use crate::storage::{FIRST_POOL, Storage};
use segment_pool::{Pool, Sha256Print};
use vault_disk::{Failed, Vault};

impl Storage {
    /// Makes the pools durable: syncs the file of each that holds a piece, in the order of the units' numbers.
    pub fn sync_pools<V: Vault>(&self, vault: &mut V) -> Result<(), Failed>
        requires known { (l : Ledger) × Follows l self.now }
        ensures keeps { (l : Ledger) → (V.disk vault.old).tells → Follows l self.now → OnOk result (KeepsLive (V.disk vault.new) l) }
        ensures looked { (V.disk vault.old).tells → LookedAround (V.disk vault.old) (V.disk vault.new) }
        ensures same { IsSame (V.disk vault.old) (V.disk vault.new) }
        ensures failed { OnErr result (Rose (V.disk vault.old).faults (V.disk vault.new).faults) }
    {
        for (number, pool) in self.pools.iter().enumerate() {
            sync_held(vault, FIRST_POOL + number as u32, pool)?;
        }
        Ok(())
    }
}

// Syncs the file of a pool, where the pool holds a piece.
fn sync_held<V: Vault>(vault: &mut V, file: u32, pool: &Pool<Sha256Print>) -> Result<(), Failed>
    ensures durable { (slot : ℕ) (what : Slot) → (V.disk vault.old).tells → held pool.now slot ≡ Some what → OnOk result (IsDurable file (V.disk vault.new)) }
    ensures looked { (V.disk vault.old).tells → LookedAround (V.disk vault.old) (V.disk vault.new) }
    ensures same { IsSame (V.disk vault.old) (V.disk vault.new) }
    ensures failed { OnErr result (Rose (V.disk vault.old).faults (V.disk vault.new).faults) }
{
    if pool.end() > 0 {
        vault.sync(file)?;
    }
    Ok(())
}
