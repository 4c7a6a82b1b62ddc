// The requests of a site file, all of them or none.
ghost use Rattle.std.specs.Prelude.{◌≡◌, ◌≤◌, ℕ, List, None, All, map, IfOk, IfErr, OnErr};
ghost use Rattle.std.specs.List.{AllPass};
ghost use Rattle.site_types.specs.Classes.{class_of, site_file};
ghost use Rattle.site_types.specs.Limits.{last_moment};
ghost use Rattle.site_types.specs.Lines.{IsFormed, line_of};
ghost use Rattle.pool_journal.specs.Entries.{IsWritable, IsStaged};
ghost use Rattle.pool_journal.specs.declared.entry.Entry.TheVariants as entry;
ghost use Rattle.desk_model.specs.Settings.{all_set, count_text, is_setting};
ghost use Rattle.vault_ledger.specs.Ledger.{Ledger};
ghost use Rattle.vault_ledger.specs.Storage.{HavePools};
ghost use Rattle.vault_ledger.specs.Wellformed.{IsLedger};
ghost use Rattle.desk_index.specs.Answers.{IsRefusalOf, IsStepRefusal};
ghost use Rattle.desk_index.specs.Changes.{AreOfFile, AreRefused, AreSet, IsReady, IsRefusedOver};
ghost use Rattle.desk_index.specs.Index.{IsIndexOf, SameLists};

use crate::index::Index;
use crate::lines::{line_of, stage_lines};
use crate::ready::Ready;
use desk_model::Site;
use desk_rules::{Change, Decision, decide};
use itoa::Buffer;
use policy_book::LoadFault;
use site_types::{Answer, Copied, NoMemory, Request, Text};
use std::alloc::Global;

fn lines_of(alloc: Global, requests: &[Request]) -> Result<Vec<Text>, NoMemory>
    ensures { IfOk result (λ v. v.items ≡ map line_of requests.now) }
{
    let mut lines = Vec::new(alloc);
    for request in requests {
        lines.push(line_of(alloc, request)?)?;
    }
    Ok(lines)
}

// How many requests there are, as a line.
fn count_text(alloc: Global, requests: &[Request]) -> Result<Text, NoMemory>
    ensures { IfOk result (λ t. t ≡ count_text requests.now) }
{
    let mut text = Buffer::new()
        .format(requests.len())
        .as_bytes()
        .to_vec(alloc)?;
    text.push(b'\n')?;
    Ok(Text::from_vec(text))
}

fn stage_requests(alloc: Global, requests: &[Request]) -> Result<Ready, NoMemory>
    requires { IsWritable (entry.Settings (map line_of requests.now)) }
    ensures staged { IfOk result (λ r. IsStaged (entry.Settings (map line_of requests.now)) r.staged) }
    ensures body { IfOk result (λ r. r.body ≡ count_text requests.now) }
{
    Ok(Ready {
        staged: stage_lines(alloc, lines_of(alloc, requests)?)?,
        body: count_text(alloc, requests)?,
    })
}

// Carries out requests one after the other, up to the first that is refused.
fn set_each(
    alloc: Global,
    index: &mut Index,
    requests: &[Request],
) -> Result<Option<Answer>, NoMemory>
    requires settings { AllPass is_setting requests.now }
    requires formed { All IsFormed requests.now }
    requires known { (l : Ledger) × IsIndexOf l index.old }
    ensures set { (l : Ledger) → IsIndexOf l index.old → IfOk result (AreSet l (all_set requests.now l.outline) index.new) }
    ensures back { (l : Ledger) → IsIndexOf l index.old → HavePools l index.new.storage.pools }
    ensures copies { index.new.storage.copies ≡ index.old.storage.copies }
    ensures catalogue { index.new.catalogue ≡ index.old.catalogue }
{
    for request in requests {
        if let Some(refusal) = index.set(alloc, request)? {
            return Ok(Some(refusal));
        }
    }
    Ok(None)
}

// Puts the site back as it was, and with it the pools. It takes no memory.
fn put_back(index: &mut Index, before: Site)
    requires there { (l : Ledger) × IsLedger l × (l.outline.site ≡ before) × HavePools l index.old.storage.pools }
    ensures back { (l : Ledger) (old : Index) → IsIndexOf l old → before ≡ old.site → index.old.catalogue ≡ old.catalogue → index.old.storage.copies ≡ old.storage.copies → HavePools l index.old.storage.pools → IsIndexOf l index.new }
    ensures site { index.new.site ≡ before }
    ensures catalogue { index.new.catalogue ≡ index.old.catalogue }
{
    index.site = before;
    index.storage.fit(&index.site.book);
}

// Carries out all requests, and then takes all memory of their record. Where one of them is refused, and without memory, the site
// is put back as it was.
fn set_all(alloc: Global, index: &mut Index, requests: &[Request]) -> Result<Ready, Answer>
    requires file { AreOfFile requests.now }
    requires settings { AllPass is_setting requests.now }
    requires formed { All IsFormed requests.now }
    requires known { (l : Ledger) × IsIndexOf l index.old }
    ensures set { (l : Ledger) → IsIndexOf l index.old → IfOk result (λ _. AreSet l (all_set requests.now l.outline) index.new None) }
    ensures staged { IfOk result (λ r. IsStaged (entry.Settings (map line_of requests.now)) r.staged) }
    ensures body { IfOk result (λ r. r.body ≡ count_text requests.now) }
    ensures refused { (l : Ledger) → IsIndexOf l index.old → IfErr result (AreRefused (all_set requests.now l.outline)) }
    ensures plain { IfErr result IsStepRefusal }
    ensures kept { (l : Ledger) → IsIndexOf l index.old → OnErr result (IsIndexOf l index.new) }
    ensures unchanged { OnErr result (SameLists index.old index.new) }
{
    let Ok(before) = index.site.copy(alloc) else {
        return Err(Answer::OutOfMemory);
    };
    let refusal = match set_each(alloc, index, requests) {
        Ok(None) => match stage_requests(alloc, requests) {
            Ok(ready) => return Ok(ready),
            Err(_) => Answer::OutOfMemory,
        },
        Ok(Some(refusal)) => refusal,
        Err(_) => Answer::OutOfMemory,
    };
    put_back(index, before); // Some of them may have been carried out.
    Err(refusal)
}

/// Makes ready the record of the requests of a site file. From then on the index is that of the ledger after them. A refusal
/// leaves it that of the same ledger, with the same site and catalogue.
pub fn prepare_load(
    alloc: Global,
    index: &mut Index,
    request: &Request,
    payload: &[u8],
    moment: u64,
) -> Result<Ready, Answer>
    requires file { class_of request.now ≡ site_file }
    requires formed { IsFormed request.now }
    requires moment { moment ≤ last_moment }
    requires known { (l : Ledger) × IsIndexOf l index.old }
    ensures ready { (l : Ledger) → IsIndexOf l index.old → IfOk result (λ r. IsReady l request.now payload.now moment r.staged r.body index.new) }
    ensures refused { (l : Ledger) → IsIndexOf l index.old → IfErr result (IsRefusedOver l request.now payload.now moment) }
    ensures plain { IfErr result (IsRefusalOf request.now payload.now) }
    ensures kept { (l : Ledger) → IsIndexOf l index.old → OnErr result (IsIndexOf l index.new) }
    ensures unchanged { OnErr result (SameLists index.old index.new) }
{
    let size = payload.len() as u64;
    let Ok(decision) = decide(alloc, &index.site, &index.catalogue, request, size, moment) else {
        return Err(Answer::OutOfMemory);
    };
    let Decision { answer, change } = decision;
    let Change::Load = change else {
        return Err(answer);
    };
    match policy_book::load(alloc, payload) {
        Ok(requests) => set_all(alloc, index, &requests),
        Err(LoadFault::NotASite) => Err(Answer::BadRequest { index: 1 }),
        Err(LoadFault::NoMemory) => Err(Answer::OutOfMemory),
    }
}
