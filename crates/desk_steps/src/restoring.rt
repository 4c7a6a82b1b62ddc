// A restore of an image by its id.
ghost use Rattle.std.specs.Prelude.{◌≡◌, ◌≤◌, ℕ, true, List, Option, Result, Contains, IfErr, OnOk};
ghost use Rattle.site_types.specs.Classes.{class_of, restore};
ghost use Rattle.site_types.specs.Limits.{last_moment};
ghost use Rattle.site_types.specs.Lines.{IsFormed};
ghost use Rattle.site_types.specs.declared.id.BackupId.{BackupId as Id};
ghost use Rattle.vault_disk.specs.Disk.{IsSame};
ghost use Rattle.vault_disk.specs.Steps.{LookedAround, Rose};
ghost use Rattle.desk_model.specs.State.{has_image};
ghost use Rattle.vault_ledger.specs.Ledger.{Ledger};
ghost use Rattle.desk_index.specs.Answers.{IsOfStep, IsStepRefusal};
ghost use Rattle.desk_index.specs.Index.{IsIndexOf};
ghost use Rattle.desk_steps.specs.Steps.{IsRefusedOverTrue, StepsOver};
ghost use Rattle.desk_steps.specs.Readings.{GivesImage, IsWholeImage, answer_of};
ghost use Rattle.desk_steps.specs.Asked.{GivesNothing, IsOneDamaged, answer_given, images_read};

use crate::reading::read_image;
use copy_fragments::CopyFault;
use desk_index::Index;
use desk_rules::{Decision, decide};
use site_types::{Answer, BackupId, Request};
use std::alloc::Global;
use vault_disk::Vault;

/// Answers with the bytes of an image, or why it is refused. Nothing changes.
pub fn restore<V: Vault>(
    alloc: Global,
    index: &mut Index,
    vault: &mut V,
    request: &Request,
    id: &BackupId,
    payload: &[u8],
    moment: u64,
) -> Answer
    requires restore { (copy : Option ℕ) × (class_of request.now ≡ restore id.now copy) }
    requires formed { IsFormed request.now }
    requires moment { moment ≤ last_moment }
    requires known { (l : Ledger) × IsIndexOf l index.old }
    ensures steps { (l : Ledger) (end : ℕ) → IsIndexOf l index.old → StepsOver l request.now payload.now moment result (V.disk vault.old) (V.disk vault.new) end end index.new }
    ensures whole { (l : Ledger) (given : Result (List ℕ) ℕ) (one : Id) → IsIndexOf l index.old → (V.disk vault.old).tells → result ≡ answer_given given → Contains (images_read (class_of request.now) moment l.outline) one → IsWholeImage (V.disk vault.old).seen l one }
    ensures damaged { (l : Ledger) (recorded found : List ℕ) → IsIndexOf l index.old → (V.disk vault.old).tells → result ≡ Answer.Damaged recorded found → IsOneDamaged (V.disk vault.old).seen l (images_read (class_of request.now) moment l.outline) recorded found }
    ensures kinds { IsOfStep result }
    ensures index { index.new ≡ index.old }
    ensures failed { result ≡ Answer.DiskFault → Rose (V.disk vault.old).faults (V.disk vault.new).faults }
    ensures looked { (V.disk vault.old).tells → LookedAround (V.disk vault.old) (V.disk vault.new) }
    ensures same { IsSame (V.disk vault.old) (V.disk vault.new) }
{
    if let Err(refusal) = check_restore(alloc, index, request, payload, moment) {
        return refusal;
    }
    match read_image(alloc, index, vault, id) {
        Ok(body) => Answer::Done { body },
        Err(fault) => answer_of(fault),
    }
}

// Whether a restore gives an image, or why it is refused.
fn check_restore(
    alloc: Global,
    index: &Index,
    request: &Request,
    payload: &[u8],
    moment: u64,
) -> Result<(), Answer>
    requires restore { (id : Id) × (copy : Option ℕ) × (class_of request.now ≡ restore id copy) }
    requires formed { IsFormed request.now }
    requires moment { moment ≤ last_moment }
    ensures there { (l : Ledger) (id : Id) (copy : Option ℕ) → IsIndexOf l index.now → class_of request.now ≡ restore id copy → OnOk result (has_image id l.outline.images ≡ true) }
    ensures steps { (l : Ledger) (id : Id) (copy : Option ℕ) → IsIndexOf l index.now → class_of request.now ≡ restore id copy → OnOk result (GivesImage l id request.now payload.now moment) }
    ensures refused { (l : Ledger) → IsIndexOf l index.now → IfErr result (IsRefusedOverTrue l request.now payload.now moment) }
    ensures plain { IfErr result IsStepRefusal }
    ensures unread { IfErr result GivesNothing }
{
    let size = payload.len() as u64;
    let Ok(decision) = decide(alloc, &index.site, &index.catalogue, request, size, moment) else {
        return Err(Answer::OutOfMemory);
    };
    let Decision { answer, change: _ } = decision;
    let Answer::Done { body: _ } = &answer else {
        return Err(answer);
    };
    Ok(())
}

// What is answered where a copy wasn't read.
pub fn answer_of(fault: CopyFault) -> Answer
    ensures { result ≡ answer_of fault }
{
    match fault {
        CopyFault::NoMemory => Answer::OutOfMemory,
        CopyFault::DiskFault => Answer::DiskFault,
        CopyFault::Damaged { recorded, found } => Answer::Damaged { recorded, found },
    }
}
