// What a backup builds on.
ghost use Rattle.std.specs.Prelude.{◌≡◌, ℕ, List, IfOk, is_ok};
ghost use Rattle.restore_engine.specs.Chains.{chain_of, latest_baseless, latest_whole, reference};

use crate::NoMemory;
use image_catalogue::{Catalogue, LatestFirst};
use site_types::{Base, Kind, Name};
use std::alloc::Global;

/// The time of the image that a backup of this kind builds on: none for a full one; for a differential one the client's latest
/// image under the policy whose chain is whole; for a cumulative one the latest that has no base. The one error is that no memory
/// was left, which the search for a client's images takes.
pub fn reference(
    alloc: Global,
    images: &Catalogue,
    policy: &Name,
    client: &Name,
    kind: Kind,
) -> Result<Option<u64>, NoMemory>
    ensures { IfOk result (λ time. time ≡ reference policy.now client.now kind images.now) }
{
    let images = images.latest_first(alloc, client, u64::MAX)?;
    Ok(match kind {
        Kind::Full => None,
        Kind::Differential => latest_whole(images, policy),
        Kind::Cumulative => latest_baseless(images, policy),
    })
}

fn latest_whole(mut images: LatestFirst<'_>, policy: &Name) -> Option<u64>
    ensures { (client : List ℕ) → result ≡ latest_whole policy.now client images.entry }
{
    while let Some(image) = images.next() {
        if image.policy == *policy && is_whole(images.again(), image.base) {
            return Some(image.id.time);
        }
    }
    None
}

// Every image of a base's chain is kept.
#[tactic(auto, using(crate::proofs::ChainLemmas::as_whole))]
fn is_whole(images: LatestFirst<'_>, base: Base) -> bool
    ensures { (client : List ℕ) → result ≡ is_ok (chain_of client images.entry base) }
{
    let mut wanted = base;
    for image in images {
        let Base::Time(time) = wanted else {
            break;
        };
        if image.id.time == time {
            wanted = image.base;
        }
    }
    matches!(wanted, Base::None)
}

fn latest_baseless(images: LatestFirst<'_>, policy: &Name) -> Option<u64>
    ensures { result ≡ latest_baseless policy.now images.entry }
{
    for image in images {
        if image.policy == *policy && matches!(image.base, Base::None) {
            return Some(image.id.time);
        }
    }
    None
}
