// A backup stored on its unit and recorded.
ghost use Rattle.std.specs.Prelude.{◌≡◌, ◌≢◌, ◌≤◌, List, Some, length, IfErr, IfOk, OnErr, OnOk};
ghost use Rattle.site_types.specs.declared.id.BackupId.{BackupId as Id};
ghost use Rattle.site_types.specs.declared.image.Base.TheVariants as base;
ghost use Rattle.vault_disk.specs.Disk.{IsSame};
ghost use Rattle.vault_disk.specs.Steps.{Rose};
ghost use Rattle.segment_pool.specs.Faults.{IsDiskFault};
ghost use Rattle.copy_fragments.specs.Copies.{Copy, IsPieceCount};
ghost use Rattle.vault_ledger.specs.Copies.{Sets};
ghost use Rattle.vault_ledger.specs.Keeping.{Between, KeptLedger};
ghost use Rattle.vault_ledger.specs.Ledger.{Ledger, state_over};
ghost use Rattle.vault_ledger.specs.Sealing.{HasSlots, SealingFails, state_sealed};
ghost use Rattle.vault_ledger.specs.Storage.{Follows, IsStored, IsUnitFor, IsUnstored};
ghost use Rattle.vault_ledger.specs.Storing.{IsSealedIn, IsUnsealedIn};

use crate::sealing::seal_backup;
use crate::storage::{FIRST_POOL, Storage};
use copy_fragments::CopyMap;
use pool_journal::{Journal, WholeImage};
use segment_pool::{Cut, Pool, PoolFault, Sha256Print, cut};
use site_types::{BackupId, NoMemory, Unit};
use std::alloc::Global;
use vault_disk::Vault;

impl Storage {
    /// Stores the bytes of a backup in the pool of its unit, and records the backup in the journal.
    ///
    /// All memory is taken before the first call of the vault. After a fault of the disk nothing is said of the storage and the
    /// journal; after another one both are as they were.
    pub fn store_backup<V: Vault>(
        &mut self,
        alloc: Global,
        journal: &mut Journal,
        vault: &mut V,
        unit: &Unit,
        image: WholeImage,
        bytes: &[u8],
    ) -> Result<(), PoolFault>
        requires known { (l : Ledger) × Follows l self.old × IsUnitFor l image unit.now }
        requires base { image.base ≢ base.Time 0 }
        requires length { image.length ≡ length bytes.now }
        ensures stored { (l : Ledger) → Follows l self.old → IsUnitFor l image unit.now → OnOk result (IsStored l image bytes.now (V.disk vault.old) (V.disk vault.new) journal.old journal.new self.new) }
        ensures unstored { (l : Ledger) → Follows l self.old → IsUnitFor l image unit.now → IfErr result (λ fault. ¬ IsDiskFault fault → IsUnstored l (V.disk vault.old) (V.disk vault.new) journal.old journal.new self.new) }
        ensures between { (l : Ledger) → Follows l self.old → IsUnitFor l image unit.now → (V.disk vault.old).tells → KeptLedger (V.disk vault.old) journal.old l → Between (state_over (V.disk vault.old).seen l) (state_sealed (state_over (V.disk vault.old).seen l) image bytes.now) (V.disk vault.old) (V.disk vault.new) }
        ensures unfailed { (l : Ledger) → Follows l self.old → IsUnitFor l image unit.now → (V.disk vault.old).tells → KeptLedger (V.disk vault.old) journal.old l → IfErr result (SealingFails unit.now.slots (state_over (V.disk vault.old).seen l) image bytes.now) }
        ensures slots { (l : Ledger) → Follows l self.old → IsUnitFor l image unit.now → (V.disk vault.old).tells → KeptLedger (V.disk vault.old) journal.old l → OnOk result (HasSlots unit.now.slots (state_over (V.disk vault.old).seen l) image bytes.now) }
        ensures unfilled { (l : Ledger) → Follows l self.old → IsUnitFor l image unit.now → (V.disk vault.old).tells → KeptLedger (V.disk vault.old) journal.old l → ¬ HasSlots unit.now.slots (state_over (V.disk vault.old).seen l) image bytes.now → Between (state_over (V.disk vault.old).seen l) (state_over (V.disk vault.old).seen l) (V.disk vault.old) (V.disk vault.new) }
        ensures refused { IfErr result (λ fault. ¬ IsDiskFault fault → journal.new ≡ journal.old) }
        ensures cause { IfErr result (λ fault. fault ≡ PoolFault.DiskFault → Rose (V.disk vault.old).faults (V.disk vault.new).faults) }
        ensures memory { IfErr result (λ fault. fault ≡ PoolFault.NoMemory → vault.new ≡ vault.old) }
        ensures same { IsSame (V.disk vault.old) (V.disk vault.new) }
    {
        let cut = cut(alloc, &Sha256Print, bytes, unit.segment)?;
        let id = image.id.copy(alloc)?;
        self.reserve_copy(alloc, unit, &id)?;
        match seal_in(alloc, journal, &mut self.pools, vault, unit, image, &cut) {
            Ok(slots) => {
                let copy = CopyMap::new(slots, unit.segment, unit.fragment, bytes.len() as u64);
                self.copies.fill(&id, copy);
                Ok(())
            }
            Err(fault) => {
                self.copies.remove(&id);
                Err(fault)
            }
        }
    }
}

impl Storage {
    // Takes memory for a backup's copy among the copies, which has no pieces yet.
    fn reserve_copy(&mut self, alloc: Global, unit: &Unit, id: &BackupId) -> Result<(), NoMemory>
        requires size { 1 ≤ unit.now.segment }
        requires some { 1 ≤ unit.now.fragment }
        ensures pools { self.new.pools ≡ self.old.pools }
        ensures reserved { OnOk result ((copy : Copy) × Sets id.now (Some copy) self.old.copies self.new.copies) }
        ensures unchanged { OnErr result (self.new ≡ self.old) }
    {
        let copy = CopyMap::new(Vec::new(alloc), unit.segment, unit.fragment, 0);
        self.copies.add(id.copy(alloc)?, copy)
    }
}

// Seals a backup in the pool of its unit. The copies that its clauses speak of are those from before one was reserved for it.
fn seal_in<V: Vault>(
    alloc: Global,
    journal: &mut Journal,
    pools: &mut [Pool<Sha256Print>],
    vault: &mut V,
    unit: &Unit,
    image: WholeImage,
    cut: &Cut<'_, Sha256Print>,
) -> Result<Vec<u32>, PoolFault>
    requires known { (l : Ledger) × (copies : List (Id × Copy)) × Follows l (record { pools = pools.old; copies = copies }) × IsUnitFor l image unit.now }
    requires base { image.base ≢ base.Time 0 }
    requires length { image.length ≡ length cut.now.bytes }
    requires size { cut.now.size ≡ unit.now.segment }
    ensures sealed { (l : Ledger) (copies : List (Id × Copy)) → Follows l (record { pools = pools.old; copies = copies }) → IsUnitFor l image unit.now → IfOk result (λ slots. IsSealedIn l image unit.now cut.now.bytes (V.disk vault.old) (V.disk vault.new) journal.old journal.new copies pools.new slots.items) }
    ensures unsealed { (l : Ledger) (copies : List (Id × Copy)) → Follows l (record { pools = pools.old; copies = copies }) → IsUnitFor l image unit.now → IfErr result (λ fault. ¬ IsDiskFault fault → IsUnsealedIn l (V.disk vault.old) (V.disk vault.new) journal.old journal.new copies pools.new) }
    ensures between { (l : Ledger) (copies : List (Id × Copy)) → Follows l (record { pools = pools.old; copies = copies }) → IsUnitFor l image unit.now → (V.disk vault.old).tells → KeptLedger (V.disk vault.old) journal.old l → Between (state_over (V.disk vault.old).seen l) (state_sealed (state_over (V.disk vault.old).seen l) image cut.now.bytes) (V.disk vault.old) (V.disk vault.new) }
    ensures unfailed { (l : Ledger) (copies : List (Id × Copy)) → Follows l (record { pools = pools.old; copies = copies }) → IsUnitFor l image unit.now → (V.disk vault.old).tells → KeptLedger (V.disk vault.old) journal.old l → IfErr result (SealingFails unit.now.slots (state_over (V.disk vault.old).seen l) image cut.now.bytes) }
    ensures slots { (l : Ledger) (copies : List (Id × Copy)) → Follows l (record { pools = pools.old; copies = copies }) → IsUnitFor l image unit.now → (V.disk vault.old).tells → KeptLedger (V.disk vault.old) journal.old l → OnOk result (HasSlots unit.now.slots (state_over (V.disk vault.old).seen l) image cut.now.bytes) }
    ensures unfilled { (l : Ledger) (copies : List (Id × Copy)) → Follows l (record { pools = pools.old; copies = copies }) → IsUnitFor l image unit.now → (V.disk vault.old).tells → KeptLedger (V.disk vault.old) journal.old l → ¬ HasSlots unit.now.slots (state_over (V.disk vault.old).seen l) image cut.now.bytes → Between (state_over (V.disk vault.old).seen l) (state_over (V.disk vault.old).seen l) (V.disk vault.old) (V.disk vault.new) }
    ensures count { IfOk result (λ slots. IsPieceCount (length slots.items) unit.now.segment (length cut.now.bytes)) }
    ensures refused { IfErr result (λ fault. ¬ IsDiskFault fault → journal.new ≡ journal.old) }
    ensures cause { IfErr result (λ fault. fault ≡ PoolFault.DiskFault → Rose (V.disk vault.old).faults (V.disk vault.new).faults) }
    ensures memory { IfErr result (λ fault. fault ≡ PoolFault.NoMemory → vault.new ≡ vault.old) }
    ensures same { IsSame (V.disk vault.old) (V.disk vault.new) }
{
    let file = FIRST_POOL + u32::from(unit.number);
    let pool = &mut pools[unit.number as usize];
    seal_backup(alloc, journal, pool, vault, file, image, cut)
}
