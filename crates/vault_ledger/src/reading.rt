// The bytes of a copy, read back.
ghost use Rattle.std.specs.Prelude.{◌≡◌, IfErr, IfOk, OnOk};
ghost use Rattle.site_types.specs.declared.image.CopyRecord.{CopyRecord};
ghost use Rattle.vault_disk.specs.Disk.{IsSame};
ghost use Rattle.vault_disk.specs.Steps.{LookedAround, Rose};
ghost use Rattle.desk_model.specs.State.{Image};
ghost use Rattle.vault_ledger.specs.Ledger.{Ledger, image_over};
ghost use Rattle.vault_ledger.specs.Storage.{Follows, IsCopyOn, IsWholeOn, ReadingFails};

use crate::storage::Storage;
use copy_fragments::CopyFault;
use site_types::{BackupId, Unit};
use std::alloc::Global;
use vault_disk::Vault;

impl Storage {
    /// The bytes of an image, from its copy on this unit. Each piece is read, and its digest compared with the recorded one.
    pub fn read_copy<V: Vault>(
        &mut self,
        alloc: Global,
        vault: &mut V,
        unit: &Unit,
        id: &BackupId,
    ) -> Result<Vec<u8>, CopyFault>
        requires known { (l : Ledger) × (image : Image) × (copy : CopyRecord) × Follows l self.old × IsCopyOn l id.now unit.now image copy }
        ensures bytes { (l : Ledger) (image : Image) (copy : CopyRecord) → Follows l self.old → IsCopyOn l id.now unit.now image copy → (V.disk vault.old).tells → IfOk result (λ bytes. bytes.items ≡ (image_over (V.disk vault.old).seen l image).bytes) }
        ensures whole { (l : Ledger) (image : Image) (copy : CopyRecord) → Follows l self.old → IsCopyOn l id.now unit.now image copy → (V.disk vault.old).tells → OnOk result (IsWholeOn (V.disk vault.old).seen l image.entry copy) }
        ensures fails { (l : Ledger) (image : Image) (copy : CopyRecord) → Follows l self.old → IsCopyOn l id.now unit.now image copy → (V.disk vault.old).tells → IfErr result (ReadingFails (V.disk vault.old).seen l image.entry copy) }
        ensures cause { IfErr result (λ fault. fault ≡ CopyFault.DiskFault → Rose (V.disk vault.old).faults (V.disk vault.new).faults) }
        ensures memory { IfErr result (λ fault. fault ≡ CopyFault.NoMemory → vault.new ≡ vault.old) }
        ensures storage { self.new ≡ self.old }
        ensures looked { (V.disk vault.old).tells → LookedAround (V.disk vault.old) (V.disk vault.new) }
        ensures same { IsSame (V.disk vault.old) (V.disk vault.new) }
    {
        let Some(copy) = self.copies.find(id) else {
            unreachable!()
        };
        copy.read_all(alloc, &mut self.pools[unit.number as usize], vault)
    }
}
