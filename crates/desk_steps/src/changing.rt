// A request that changes the site, and a site file.
ghost use Rattle.std.specs.Prelude.{◌≡◌, ◌≢◌, ◌≤◌, ℕ, true, List, IfErr, IfOk, OnErr};
ghost use Rattle.site_types.specs.Limits.{last_moment};
ghost use Rattle.site_types.specs.Lines.{IsFormed};
ghost use Rattle.vault_disk.specs.Disk.{IsSame};
ghost use Rattle.vault_disk.specs.Steps.{Rose};
ghost use Rattle.vault_ledger.specs.Ledger.{Ledger};
ghost use Rattle.desk_index.specs.Answers.{IsOfRequest, IsRefusal, IsRefusalOf};
ghost use Rattle.desk_index.specs.Changes.{IsReady, IsRefusedOver};
ghost use Rattle.desk_index.specs.Index.{IsIndexOf, SameLists};
ghost use Rattle.desk_steps.specs.Steps.{StepsOver, is_change};

use desk_index::{Index, Ready, prepare_change, prepare_load};
use pool_journal::Journal;
use site_types::{Answer, ByClass, Request};
use std::alloc::Global;
use vault_disk::{Failed, Vault};

/// Carries out a request that changes the site, or those of a site file. A refusal leaves all as it was. After a fault of the disk
/// the record may be there or not.
pub fn change_site<V: Vault>(
    alloc: Global,
    index: &mut Index,
    journal: &mut Journal,
    vault: &mut V,
    request: &Request,
    payload: &[u8],
    moment: u64,
) -> Answer
    requires change { is_change request.now ≡ true }
    requires formed { IsFormed request.now }
    requires moment { moment ≤ last_moment }
    requires known { (l : Ledger) × IsIndexOf l index.old }
    ensures steps { (l : Ledger) → IsIndexOf l index.old → StepsOver l request.now payload.now moment result (V.disk vault.old) (V.disk vault.new) journal.old journal.new index.new }
    ensures kinds { IsOfRequest request.now payload.now result }
    ensures undamaged { (recorded found : List ℕ) → result ≢ Answer.Damaged recorded found }
    ensures refused { IsRefusal result → SameLists index.old index.new × (journal.new ≡ journal.old) × (vault.new ≡ vault.old) }
    ensures failed { result ≡ Answer.DiskFault → Rose (V.disk vault.old).faults (V.disk vault.new).faults }
    ensures same { IsSame (V.disk vault.old) (V.disk vault.new) }
{
    let ready = match prepare(alloc, index, request, payload, moment) {
        Ok(ready) => ready,
        Err(refusal) => return refusal,
    };
    match journal.write(vault, &ready.staged) {
        Ok(()) => Answer::Done { body: ready.body },
        Err(Failed) => Answer::DiskFault,
    }
}

// Makes ready what such a request records.
fn prepare(
    alloc: Global,
    index: &mut Index,
    request: &Request,
    payload: &[u8],
    moment: u64,
) -> Result<Ready, Answer>
    requires change { is_change request.now ≡ true }
    requires formed { IsFormed request.now }
    requires moment { moment ≤ last_moment }
    requires known { (l : Ledger) × IsIndexOf l index.old }
    ensures ready { (l : Ledger) → IsIndexOf l index.old → IfOk result (λ r. IsReady l request.now payload.now moment r.staged r.body index.new) }
    ensures refused { (l : Ledger) → IsIndexOf l index.old → IfErr result (IsRefusedOver l request.now payload.now moment) }
    ensures plain { IfErr result (IsRefusalOf request.now payload.now) }
    ensures kept { (l : Ledger) → IsIndexOf l index.old → OnErr result (IsIndexOf l index.new) }
    ensures unchanged { OnErr result (SameLists index.old index.new) }
{
    match request.by_class() {
        ByClass::SiteChange(_) => prepare_change(alloc, index, request),
        ByClass::SiteFile => prepare_load(alloc, index, request, payload, moment),
        // Neither of them changes the site.
        ByClass::Backup { .. } | ByClass::Restore { .. } | ByClass::RestoreAt { .. } =>
            unreachable!(),
    }
}
