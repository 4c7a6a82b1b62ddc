// Any request, by its class.
ghost use Rattle.std.specs.Prelude.{◌≡◌, ◌≤◌, ℕ, true, false, List, Result, Contains};
ghost use Rattle.site_types.specs.Classes.{class_of};
ghost use Rattle.site_types.specs.Limits.{last_moment};
ghost use Rattle.site_types.specs.Lines.{IsFormed};
ghost use Rattle.site_types.specs.declared.id.BackupId.{BackupId as Id};
ghost use Rattle.vault_disk.specs.Disk.{IsSame};
ghost use Rattle.vault_disk.specs.Steps.{Rose};
ghost use Rattle.vault_ledger.specs.Ledger.{Ledger};
ghost use Rattle.desk_index.specs.Answers.{IsOfRequest, IsRefusal};
ghost use Rattle.desk_index.specs.Index.{IsIndexOf, SameLists};
ghost use Rattle.desk_steps.specs.Steps.{StepsOver, is_change, is_written};
ghost use Rattle.desk_steps.specs.Readings.{IsWholeImage};
ghost use Rattle.desk_steps.specs.Backups.{is_backup};
ghost use Rattle.desk_steps.specs.Asked.{IsOneDamaged, answer_given, images_read};

use crate::backup::back_up;
use crate::chain::restore_at;
use crate::changing::change_site;
use crate::restoring::restore;
use desk_index::Index;
use pool_journal::Journal;
use site_types::{Answer, ByClass, Request};
use std::alloc::Global;
use vault_disk::Vault;

/// Carries out a request with its payload at a moment, over the index of a ledger, its journal and its vault.
pub fn carry_out<V: Vault>(
    alloc: Global,
    index: &mut Index,
    journal: &mut Journal,
    vault: &mut V,
    request: &Request,
    payload: &[u8],
    moment: u64,
) -> Answer
    requires formed { IsFormed request.now }
    requires moment { moment ≤ last_moment }
    requires known { (l : Ledger) × IsIndexOf l index.old }
    ensures steps { (l : Ledger) → IsIndexOf l index.old → StepsOver l request.now payload.now moment result (V.disk vault.old) (V.disk vault.new) journal.old journal.new index.new }
    ensures kinds { IsOfRequest request.now payload.now result }
    ensures refused { IsRefusal result → SameLists index.old index.new }
    ensures untouched { is_change request.now ≡ true → IsRefusal result → vault.new ≡ vault.old }
    ensures memory { is_written request.now ≡ true → result ≡ Answer.OutOfMemory → vault.new ≡ vault.old }
    ensures whole { (l : Ledger) (given : Result (List ℕ) ℕ) (id : Id) → IsIndexOf l index.old → (V.disk vault.old).tells → result ≡ answer_given given → Contains (images_read (class_of request.now) moment l.outline) id → IsWholeImage (V.disk vault.old).seen l id }
    ensures damaged { (l : Ledger) (recorded found : List ℕ) → IsIndexOf l index.old → (V.disk vault.old).tells → is_backup request.now ≡ false → result ≡ Answer.Damaged recorded found → IsOneDamaged (V.disk vault.old).seen l (images_read (class_of request.now) moment l.outline) recorded found }
    ensures failed { result ≡ Answer.DiskFault → Rose (V.disk vault.old).faults (V.disk vault.new).faults }
    ensures same { IsSame (V.disk vault.old) (V.disk vault.new) }
{
    match request.by_class() {
        ByClass::SiteChange(_) | ByClass::SiteFile => {
            change_site(alloc, index, journal, vault, request, payload, moment)
        }
        ByClass::Backup { .. } => back_up(alloc, index, journal, vault, request, payload, moment),
        ByClass::Restore { id, copy: _ } => {
            restore(alloc, index, vault, request, id, payload, moment)
        }
        ByClass::RestoreAt { .. } => restore_at(alloc, index, vault, request, payload, moment),
    }
}
