// A backup at once.
ghost use Rattle.std.specs.Prelude.{◌≡◌, ◌≤◌, true, codes, IfErr, IfOk, OnErr, OnOk};
ghost use Rattle.site_types.specs.Limits.{last_moment};
ghost use Rattle.site_types.specs.Lines.{IsFormed};
ghost use Rattle.vault_disk.specs.Disk.{IsSame};
ghost use Rattle.vault_disk.specs.Steps.{Rose};
ghost use Rattle.policy_book.specs.Changes.{last_known};
ghost use Rattle.desk_rules.specs.Contents.{content_bytes};
ghost use Rattle.vault_ledger.specs.Fitting.{image_fits};
ghost use Rattle.vault_ledger.specs.Ledger.{Ledger};
ghost use Rattle.vault_ledger.specs.Storage.{IsUnitFor};
ghost use Rattle.desk_index.specs.Answers.{IsOfStep, IsRefusal, IsStepRefusal};
ghost use Rattle.desk_index.specs.Index.{IsAdmitted, IsIndexOf, SameLists};
ghost use Rattle.desk_steps.specs.Backups.{SealsNow, is_backup, unstored_answer, whole_of};
ghost use Rattle.desk_steps.specs.Steps.{IsRefusedOverTrue, StepsOver};

use desk_index::{Index, admit_image, unit_for};
use desk_rules::{Change, Content, Decision, JobBody, decide, seal_content};
use pool_journal::{Journal, WholeImage};
use segment_pool::PoolFault;
use site_types::{Answer, BackupId, Copied, NoMemory, Request, Text, Unit};
use std::alloc::Global;
use vault_disk::Vault;

// The image that a backup makes, its bytes, and what is answered once it is sealed.
#[derive(Drop)]
struct Chosen<'a> {
    image: WholeImage,
    content: Content<'a>,
    line: Text,
}

// What sealing an image needs beside it: the unit to which it goes, and what a refusal takes.
#[derive(Drop)]
struct Prepared {
    unit: Unit,
    id: BackupId,
    // The greatest time of the client's images before this one.
    last: Option<u64>,
    kind: Text,
}

/// Backs up a payload at once. A refusal leaves the site, the catalogue and the journal as they were. After a fault of the disk
/// the record may be there or not.
pub fn back_up<V: Vault>(
    alloc: Global,
    index: &mut Index,
    journal: &mut Journal,
    vault: &mut V,
    request: &Request,
    payload: &[u8],
    moment: u64,
) -> Answer
    requires backup { is_backup request.now ≡ true }
    requires formed { IsFormed request.now }
    requires moment { moment ≤ last_moment }
    requires known { (l : Ledger) × IsIndexOf l index.old }
    ensures steps { (l : Ledger) → IsIndexOf l index.old → StepsOver l request.now payload.now moment result (V.disk vault.old) (V.disk vault.new) journal.old journal.new index.new }
    ensures kinds { IsOfStep result }
    ensures refused { IsRefusal result → SameLists index.old index.new × (journal.new ≡ journal.old) }
    ensures memory { result ≡ Answer.OutOfMemory → vault.new ≡ vault.old }
    ensures failed { result ≡ Answer.DiskFault → Rose (V.disk vault.old).faults (V.disk vault.new).faults }
    ensures same { IsSame (V.disk vault.old) (V.disk vault.new) }
{
    let chosen = match choose(alloc, index, request, payload, moment) {
        Ok(chosen) => chosen,
        Err(refusal) => return refusal,
    };
    let Chosen {
        image,
        content,
        line,
    } = chosen;
    let Ok(prepared) = prepare(alloc, index, &image) else {
        return Answer::OutOfMemory;
    };
    let Prepared {
        unit,
        id,
        last,
        kind,
    } = prepared;
    let bytes = content.bytes();
    match index
        .storage
        .store_backup(alloc, journal, vault, &unit, image, bytes)
    {
        Ok(()) => Answer::Done { body: line },
        Err(fault) => {
            index.expel(&id, last);
            unstored_answer(fault, kind, unit.slots)
        }
    }
}

// What a backup seals, or why it is refused. The unit's slots aren't looked at.
fn choose<'a>(
    alloc: Global,
    index: &Index,
    request: &Request,
    payload: &'a [u8],
    moment: u64,
) -> Result<Chosen<'a>, Answer>
    requires backup { is_backup request.now ≡ true }
    requires formed { IsFormed request.now }
    requires moment { moment ≤ last_moment }
    ensures seals { (l : Ledger) → IsIndexOf l index.now → IfOk result (λ c. SealsNow l request.now payload.now moment c.image (content_bytes c.content) c.line) }
    ensures refused { (l : Ledger) → IsIndexOf l index.now → IfErr result (IsRefusedOverTrue l request.now payload.now moment) }
    ensures plain { IfErr result IsStepRefusal }
{
    let size = payload.len() as u64;
    let Ok(decision) = decide(alloc, &index.site, &index.catalogue, request, size, moment) else {
        return Err(Answer::OutOfMemory);
    };
    let Decision { answer, change } = decision;
    let Change::SealNow { body } = change else {
        return Err(answer);
    };
    let line = match answer {
        Answer::Done { body: line } => line,
        refusal => return Err(refusal),
    };
    let content = match seal_content(alloc, &index.site, &index.catalogue, &body, payload) {
        Ok(content) => content,
        Err(refusal) => return Err(refusal),
    };
    let length = content.bytes().len() as u64;
    let image = whole_of(body, length, moment);
    Ok(Chosen {
        image,
        content,
        line,
    })
}

fn whole_of(body: JobBody, size: u64, moment: u64) -> WholeImage
    ensures { result ≡ whole_of body size moment }
{
    let JobBody::Backup {
        id,
        policy,
        schedule,
        kind,
        base,
        lifecycle,
        version,
        length: _,
    } = body;
    WholeImage {
        id,
        policy,
        schedule,
        kind,
        base,
        lifecycle,
        version,
        completed: moment,
        length: size,
    }
}

// Takes the memory that an image's backup takes before it is stored, and takes the image into the index.
fn prepare(alloc: Global, index: &mut Index, image: &WholeImage) -> Result<Prepared, NoMemory>
    requires known { (l : Ledger) × IsIndexOf l index.old × (image_fits l.outline image.now ≡ true) }
    ensures unit { (l : Ledger) → IsIndexOf l index.old → image_fits l.outline image.now ≡ true → IfOk result (λ p. IsUnitFor l image.now p.unit) }
    ensures id { IfOk result (λ p. p.id ≡ image.now.id) }
    ensures last { IfOk result (λ p. p.last ≡ last_known image.now.id.client index.old.site.book) }
    ensures kind { IfOk result (λ p. p.kind ≡ codes "segments") }
    ensures admitted { OnOk result (IsAdmitted image.now index.old index.new) }
    ensures unchanged { OnErr result (index.new ≡ index.old) }
{
    let unit = unit_for(&index.site.book, image).copy(alloc)?;
    let id = image.id.copy(alloc)?;
    let last = index.site.book.last_known(&image.id.client);
    let kind = Text::new(alloc, b"segments")?;
    admit_image(alloc, index, image)?;
    Ok(Prepared {
        unit,
        id,
        last,
        kind,
    })
}

// What is answered where the bytes of a backup weren't stored, on a unit of so many slots.
fn unstored_answer(fault: PoolFault, kind: Text, slots: u32) -> Answer
    requires { kind ≡ codes "segments" }
    ensures { result ≡ unstored_answer fault slots }
{
    match fault {
        PoolFault::NoMemory => Answer::OutOfMemory,
        PoolFault::DiskFault => Answer::DiskFault,
        PoolFault::Damaged { recorded, found } => Answer::Damaged { recorded, found },
        PoolFault::Full { count } => Answer::TooMany {
            kind,
            count: u64::from(count),
            limit: u64::from(slots),
        },
    }
}
