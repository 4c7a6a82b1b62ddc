// Restores of a client under a policy, as it was at a moment.
ghost use Rattle.std.specs.Prelude.{◌≡◌, ◌+◌, [], ◌∷◌, Some, Ok, IfOk, not, is_none, is_some, nat_lt, codes, unwrap_or};
ghost use Rattle.site_types.specs.Limits.{payload_limit};
ghost use Rattle.site_types.specs.declared.answer.Answer.TheVariants as answer;
ghost use Rattle.policy_book.specs.Changes.{pair_text};
ghost use Rattle.image_catalogue.specs.Images.{record_named};
ghost use Rattle.restore_engine.specs.Chains.{chain_at};
ghost use Rattle.desk_model.specs.Backups.{is_known};
ghost use Rattle.desk_model.specs.Refusals.{first_refusal};
ghost use Rattle.desk_model.specs.Restores.{ids_of, missing_of, restore_at_refusals};
ghost use Rattle.desk_rules.specs.declared.decision.Change.TheVariants as change;
ghost use Rattle.desk_rules.specs.Refusing.{Passes, settled};
ghost use Rattle.desk_rules.specs.Seen.{length_of, lengths, seen};

use crate::backup_clients::{is_known, known_policy};
use crate::refusal::{Refusal, refused};
use crate::{Change, Decision, NoMemory};
use desk_model::Site;
use image_catalogue::Catalogue;
use policy_book::{Book, pair_text};
use restore_engine::{ChainFault, chain_at};
use site_types::{Answer, BackupId, ListOf, Name, PAYLOAD_LIMIT, Text};
use std::alloc::{AllocError, Global};

// What the chain gives back is its answer, and isn't looked at.
pub(crate) fn decide_restore_at<'a>(
    alloc: Global,
    site: &Site,
    images: &Catalogue,
    client: &Name,
    policy: &Name,
    before: u64,
) -> Result<Decision<'a>, NoMemory>
    ensures { IfOk result (λ d. d ≡ settled (first_refusal (restore_at_refusals client.now policy.now (chain_at policy.now client.now before images.now) (lengths images.now (ids_of (chain_at policy.now client.now before images.now))) (seen site.now images.now))) (answer.Done []) change.Nothing) }
{
    match check_restore_at(alloc, site, images, client, policy, before) {
        Ok(()) => Ok(Decision {
            answer: Answer::Done {
                body: Text::from_vec(Vec::new(alloc)),
            },
            change: Change::Nothing,
        }),
        Err(refusal) => refused(refusal),
    }
}

fn check_restore_at(
    alloc: Global,
    site: &Site,
    images: &Catalogue,
    client: &Name,
    policy: &Name,
    before: u64,
) -> Result<(), Refusal>
    ensures { Passes (restore_at_refusals client.now policy.now (chain_at policy.now client.now before images.now) (lengths images.now (ids_of (chain_at policy.now client.now before images.now))) (seen site.now images.now)) result }
{
    known_policy(alloc, &site.book, policy)?;
    check_in_book(alloc, &site.book, client)?;
    let ids = whole_chain(alloc, images, client, policy, before)?;
    check_total(alloc, total_length(images, ids.as_slice())?)
}

fn check_in_book(alloc: Global, book: &Book, client: &Name) -> Result<(), Refusal>
    ensures { Passes ((not (is_known client.now book.now), answer.Unknown client.now) ∷ []) result }
{
    if !is_known(client, book) {
        return Err(Refusal::Answered(Answer::Unknown {
            name: Text::new(alloc, client.bytes())?,
        }));
    }
    Ok(())
}

// The ids of the chain's images, each of which is kept.
fn whole_chain(
    alloc: Global,
    images: &Catalogue,
    client: &Name,
    policy: &Name,
    before: u64,
) -> Result<ListOf<BackupId>, Refusal>
    ensures passes { Passes ((is_none (chain_at policy.now client.now before images.now), answer.Unknown (pair_text policy.now client.now)) ∷ (is_some (missing_of (chain_at policy.now client.now before images.now)), answer.ChainBroken (unwrap_or (missing_of (chain_at policy.now client.now before images.now)) (record { client = client.now; time = 0 }))) ∷ []) result }
    ensures whole { IfOk result (λ ids. chain_at policy.now client.now before images.now ≡ Some (Ok ids)) }
{
    match chain_at(alloc, images, policy, client, before) {
        Ok(ids) => Ok(ids),
        Err(ChainFault::NoImage) => Err(Refusal::Answered(Answer::Unknown {
            name: pair_text(alloc, policy.bytes(), client.bytes())?,
        })),
        Err(ChainFault::Lacks(id)) => Err(Refusal::Answered(Answer::ChainBroken { id })),
        Err(ChainFault::NoMemory) => Err(Refusal::NoMemory),
    }
}

// How many bytes these images have together. No disk has more than 64 bits count; there would be no memory for them.
fn total_length(images: &Catalogue, ids: &[BackupId]) -> Result<u64, NoMemory>
    ensures { IfOk result (λ total. total ≡ lengths images.now ids.now) }
{
    let mut total = 0;
    for id in ids {
        total = sum(total, length_of(images, id))?;
    }
    Ok(total)
}

fn sum(total: u64, length: u64) -> Result<u64, NoMemory>
    ensures { IfOk result (λ sum. sum ≡ total + length) }
{
    total.checked_add(length).ok_or(AllocError)
}

// How many bytes the image of this id has.
fn length_of(images: &Catalogue, id: &BackupId) -> u64
    ensures { result ≡ length_of (record_named id.now images.now) }
{
    match images.find(id) {
        Some(image) => image.length,
        None => 0,
    }
}

fn check_total(alloc: Global, total: u64) -> Result<(), Refusal>
    ensures { Passes ((nat_lt payload_limit total, answer.TooMany (codes "bytes") total payload_limit) ∷ []) result }
{
    if total > PAYLOAD_LIMIT {
        return Err(Refusal::Answered(Answer::TooMany {
            kind: Text::new(alloc, b"bytes")?,
            count: total,
            limit: PAYLOAD_LIMIT,
        }));
    }
    Ok(())
}
