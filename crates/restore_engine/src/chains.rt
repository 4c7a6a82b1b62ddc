// The chain of images that a restore reads.
ghost use Rattle.std.specs.Prelude.{◌≡◌, ℕ, List, [], IfOk, option_map};
ghost use Rattle.restore_engine.specs.Chains.{IsChain, chain_at, chain_of, followed_by, latest_chain};
ghost use Rattle.restore_engine.specs.Walks.{before};
ghost use Rattle.restore_engine.specs.declared.chains.ChainFault.TheVariants as fault;

use crate::NoMemory;
use image_catalogue::{Catalogue, LatestFirst};
use site_types::{BackupId, Base, ImageRecord, ListOf, Name};
use std::alloc::{AllocFailed, Global};

/// Why there is no chain.
#[derive(Debug, Drop)]
pub enum ChainFault {
    /// No image of the client was made under the policy at the moment or before it.
    NoImage,
    /// The first image on the way down the bases that isn't kept.
    Lacks(BackupId),
    /// No memory was left. It may be answered in place of anything else.
    NoMemory,
}

impl From<NoMemory> for ChainFault {
    ghost from_gives = { λ _ e. e ≡ fault.NoMemory };

    fn from(_: NoMemory) -> ChainFault {
        ChainFault::NoMemory
    }
}

impl<T: Drop> From<AllocFailed<T>> for ChainFault {
    ghost from_gives = { λ _ e. e ≡ fault.NoMemory };

    fn from(_: AllocFailed<T>) -> ChainFault {
        ChainFault::NoMemory
    }
}

/// The ids of the chain of a client's latest image under a policy that was made at a moment or before it, in seconds since
/// 1970-01-01T00:00:00Z: first that of the image with no base, last that of the latest image.
#[tactic(auto, using(crate::proofs::ChainLemmas::of_latest))]
pub fn chain_at(
    alloc: Global,
    images: &Catalogue,
    policy: &Name,
    client: &Name,
    before: u64,
) -> Result<ListOf<BackupId>, ChainFault>
    ensures { IsChain result (chain_at policy.now client.now before images.now) }
{
    let mut earlier = images.latest_first(alloc, client, before)?;
    let Some(latest) = next_under(&mut earlier, policy) else {
        return Err(ChainFault::NoImage);
    };
    let mut ids = Vec::new(alloc);
    ids.push(latest.id.copy(alloc)?)?;
    let missing = add_bases(alloc, &mut ids, earlier, latest.base)?;
    if let Base::Time(time) = missing {
        return Err(ChainFault::Lacks(BackupId {
            client: client.copy(alloc)?,
            time,
        }));
    }
    ids.reverse();
    Ok(ListOf::from_vec(ids))
}

// The next image under a policy.
fn next_under<'a>(images: &mut LatestFirst<'a>, policy: &Name) -> Option<&'a ImageRecord>
    ensures { (client : List ℕ) → latest_chain policy.now client images.old ≡ option_map (λ image. followed_by image.now.id (chain_of client images.new image.now.base)) result }
{
    while let Some(image) = images.next() {
        if image.policy == *policy {
            return Some(image);
        }
    }
    None
}

// Adds the ids of a base's chain, from the last one on. What is left is the base that isn't kept, or none.
#[tactic(auto, using(crate::proofs::ChainLemmas::added))]
fn add_bases(
    alloc: Global,
    ids: &mut Vec<BackupId>,
    images: LatestFirst<'_>,
    base: Base,
) -> Result<Base, NoMemory>
    ensures { (client : List ℕ) → IfOk result (λ left. before ids.new.items (chain_of client [] left) ≡ before ids.old.items (chain_of client images.entry base)) }
{
    let mut wanted = base;
    for image in images {
        let Base::Time(time) = wanted else {
            break;
        };
        if image.id.time == time {
            ids.push(image.id.copy(alloc)?)?;
            wanted = image.base;
        }
    }
    Ok(wanted)
}
