// A restore of a client under a policy as it was at a moment.
ghost use Rattle.std.specs.Prelude.{◌≡◌, ◌≤◌, ◌++◌, ℕ, List, [], ◌∷◌, true, Result, Ok, Contains, IfOk, IfErr, OnOk};
ghost use Rattle.site_types.specs.Classes.{class_of};
ghost use Rattle.site_types.specs.Limits.{last_moment};
ghost use Rattle.site_types.specs.Lines.{IsFormed};
ghost use Rattle.site_types.specs.declared.id.BackupId.{BackupId as Id};
ghost use Rattle.vault_disk.specs.Disk.{IsSame};
ghost use Rattle.vault_disk.specs.Steps.{LookedAround, Rose};
ghost use Rattle.image_kinds.specs.Trees.{tree};
ghost use Rattle.desk_model.specs.Restores.{given_by, images_in, last_bytes, tree_spelled};
ghost use Rattle.desk_model.specs.State.{has_image};
ghost use Rattle.vault_ledger.specs.Ledger.{Ledger};
ghost use Rattle.desk_index.specs.Answers.{IsOfStep, IsStepRefusal, reads_first};
ghost use Rattle.desk_index.specs.Index.{IsIndexOf};
ghost use Rattle.desk_steps.specs.Steps.{IsRefusedOverTrue, StepsOver};
ghost use Rattle.desk_steps.specs.Readings.{IsWholeImage};
ghost use Rattle.desk_steps.specs.Asked.{GivesNothing, IsOneDamaged, answer_given, images_read, wanted};
ghost use Rattle.desk_steps.specs.Chains.{GivesChain, IsBroken, IsGiven, files_under};

use crate::reading::read_images;
use crate::restoring::answer_of;
use desk_index::Index;
use desk_rules::{Decision, decide};
use image_kinds::{ImageBody, Stream, StreamFault, decode_image, encode_stream, merge_chain};
use restore_engine::{ChainFault, chain_at};
use site_types::{Answer, BackupId, ByClass, ListOf, Name, NoMemory, Request, Text};
use std::alloc::Global;
use vault_disk::Vault;

/// Answers with the tree of a chain of images as a stream, or with the bytes of the latest image, or why it is refused. Nothing
/// changes.
pub fn restore_at<V: Vault>(
    alloc: Global,
    index: &mut Index,
    vault: &mut V,
    request: &Request,
    payload: &[u8],
    moment: u64,
) -> Answer
    requires restore { reads_first request.now ≡ true }
    requires formed { IsFormed request.now }
    requires moment { moment ≤ last_moment }
    requires known { (l : Ledger) × IsIndexOf l index.old }
    ensures steps { (l : Ledger) (end : ℕ) → IsIndexOf l index.old → StepsOver l request.now payload.now moment result (V.disk vault.old) (V.disk vault.new) end end index.new }
    ensures whole { (l : Ledger) (given : Result (List ℕ) ℕ) (id : Id) → IsIndexOf l index.old → (V.disk vault.old).tells → result ≡ answer_given given → Contains (images_read (class_of request.now) moment l.outline) id → IsWholeImage (V.disk vault.old).seen l id }
    ensures damaged { (l : Ledger) (recorded found : List ℕ) → IsIndexOf l index.old → (V.disk vault.old).tells → result ≡ Answer.Damaged recorded found → IsOneDamaged (V.disk vault.old).seen l (images_read (class_of request.now) moment l.outline) recorded found }
    ensures kinds { IsOfStep result }
    ensures index { index.new ≡ index.old }
    ensures failed { result ≡ Answer.DiskFault → Rose (V.disk vault.old).faults (V.disk vault.new).faults }
    ensures looked { (V.disk vault.old).tells → LookedAround (V.disk vault.old) (V.disk vault.new) }
    ensures same { IsSame (V.disk vault.old) (V.disk vault.new) }
{
    let chain = match find_chain(alloc, index, request, payload, moment) {
        Ok(chain) => chain,
        Err(refusal) => return refusal,
    };
    match read_images(alloc, index, vault, wanted(&chain.ids, chain.files)) {
        Ok(images) => given_back(alloc, chain.files, images),
        Err(fault) => answer_of(fault),
    }
}

// A chain of images that is kept, from the one with no base on.
#[derive(Drop)]
struct FoundChain {
    ids: ListOf<BackupId>,
    // The images are of files, and give back a tree. Otherwise the bytes of the last are given back.
    files: bool,
}

// The chain that a restore of a moment asks for, or why it is refused.
fn find_chain(
    alloc: Global,
    index: &Index,
    request: &Request,
    payload: &[u8],
    moment: u64,
) -> Result<FoundChain, Answer>
    requires restore { reads_first request.now ≡ true }
    requires formed { IsFormed request.now }
    requires moment { moment ≤ last_moment }
    ensures there { (l : Ledger) → IsIndexOf l index.now → IfOk result (λ chain. (id : Id) → Contains chain.ids id → has_image id l.outline.images ≡ true) }
    ensures steps { (l : Ledger) → IsIndexOf l index.now → IfOk result (λ chain. GivesChain l chain.files (wanted chain.files chain.ids) request.now payload.now moment) }
    ensures asked { (l : Ledger) → IsIndexOf l index.now → IfOk result (λ chain. wanted chain.files chain.ids ≡ images_read (class_of request.now) moment l.outline) }
    ensures refused { (l : Ledger) → IsIndexOf l index.now → IfErr result (IsRefusedOverTrue l request.now payload.now moment) }
    ensures plain { IfErr result IsStepRefusal }
    ensures unread { IfErr result GivesNothing }
{
    let ByClass::RestoreAt {
        client,
        policy,
        before,
    } = request.by_class()
    else {
        unreachable!()
    };
    let size = payload.len() as u64;
    let Ok(decision) = decide(alloc, &index.site, &index.catalogue, request, size, moment) else {
        return Err(Answer::OutOfMemory);
    };
    let Decision { answer, change: _ } = decision;
    let Answer::Done { body: _ } = &answer else {
        return Err(answer);
    };
    let before = before.unwrap_or(moment);
    let ids = match chain_at(alloc, &index.catalogue, policy, client, before) {
        Ok(ids) => ids,
        Err(ChainFault::NoMemory) => return Err(Answer::OutOfMemory),
        Err(ChainFault::NoImage) => unreachable!(),
        Err(ChainFault::Lacks(_)) => unreachable!(),
    };
    let files = has_files(index, policy);
    Ok(FoundChain { ids, files })
}

fn has_files(index: &Index, policy: &Name) -> bool
    ensures { result ≡ files_under policy.now index.now.site.book }
{
    match index.site.book.policy(policy) {
        Some(policy) => policy.files(),
        None => false,
    }
}

// Where a policy takes bytes as they come, the last image's are wanted alone.
fn wanted(ids: &ListOf<BackupId>, files: bool) -> &[BackupId]
    ensures { result.now ≡ wanted files ids.now }
{
    let ids = ids.as_slice();
    if files {
        ids
    } else {
        &ids[ids.len().saturating_sub(1)..]
    }
}

// What is answered with images whose bytes these are: the tree of their chain as a stream, or the bytes of the last.
fn given_back(alloc: Global, files: bool, images: Vec<Text>) -> Answer
    ensures { IsGiven (given_by files images.items) result }
{
    if !files {
        return Answer::Done {
            body: last_of(alloc, images),
        };
    }
    match tree_of(alloc, &images) {
        Ok(body) => Answer::Done { body },
        Err(StreamFault::Bad { offset }) => Answer::BadStream { offset },
        Err(StreamFault::NoMemory) => Answer::OutOfMemory,
    }
}

fn last_of(alloc: Global, mut images: Vec<Text>) -> Text
    ensures { result ≡ last_bytes images.items }
{
    match images.pop() {
        Some(bytes) => bytes,
        None => Text::from_vec(Vec::new(alloc)),
    }
}

// The tree of the images that these bytes spell, as a stream.
fn tree_of(alloc: Global, images: &[Text]) -> Result<Text, StreamFault>
    ensures tree { IfOk result (λ body. tree_spelled (images_in images.now) ≡ Ok body) }
    ensures fault { IfErr result (IsBroken (tree_spelled (images_in images.now))) }
{
    let bodies = bodies_of(alloc, images)?;
    let stream = merged(alloc, &bodies)?;
    Ok(Text::from_vec(encode_stream(alloc, &stream)?))
}

// The tree of no images has no file.
fn merged<'a>(alloc: Global, bodies: &[ImageBody<'a>]) -> Result<Stream<'a>, NoMemory>
    ensures { IfOk result (λ stream. stream ≡ tree bodies.now) }
{
    if bodies.is_empty() {
        return Ok(Stream::new(Vec::new(alloc)));
    }
    merge_chain(alloc, bodies)
}

// The images that these bytes spell, or where the first of them break that spell none.
fn bodies_of(alloc: Global, images: &[Text]) -> Result<Vec<ImageBody<'_>>, StreamFault>
    ensures bodies { IfOk result (λ bodies. images_in images.now ≡ Ok bodies.items) }
    ensures fault { IfErr result (IsBroken (images_in images.now)) }
{
    let mut bodies = Vec::new(alloc);
    for bytes in images {
        let body = decode_image(alloc, bytes.bytes())?;
        add(&mut bodies, body)?;
    }
    Ok(bodies)
}

fn add<'a>(bodies: &mut Vec<ImageBody<'a>>, body: ImageBody<'a>) -> Result<(), NoMemory>
    ensures { OnOk result (bodies.new.items ≡ bodies.old.items ++ body.entry ∷ []) }
{
    bodies.push(body)?;
    Ok(())
}
