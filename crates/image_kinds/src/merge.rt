// A path is looked up in each image by halving, so a merge takes n log n in the entries.
ghost use Rattle.std.specs.Prelude.{◌≡◌, ◌<◌, ◌++◌, ◌∷◌, [], ◌/◌, ℕ, List, true, length, take, drop, map, IfOk};
ghost use Rattle.std.specs.Option.{option_copied};
ghost use Rattle.image_kinds.specs.Paths.{are_rising};
ghost use Rattle.image_kinds.specs.Streams.{path_of, taken_of};
ghost use Rattle.image_kinds.specs.Images.{selected};
ghost use Rattle.image_kinds.specs.Trees.{taken_in, last_taken, entry_behind, tree, Backup, chain_of, last_stream, AreBackups};

use crate::entry::{Entry, Item};
use crate::stream::{ImageBody, Stream};
use site_types::NoMemory;
use std::alloc::Global;
use std::cmp::Ordering;

impl<'a> Item<'a> {
    // The entry that it took.
    fn taken(&self) -> Option<&Entry<'a>>
        ensures { option_copied result ≡ taken_of self.now }
    {
        match self {
            Item::Taken(entry) => Some(entry),
            Item::Kept(_) => None,
        }
    }
}

// Some items from the middle one on.
fn later_half<'s, 'a>(items: &'s [Item<'a>]) -> &'s [Item<'a>]
    ensures { result.now ≡ drop (length items.now / 2) items.now }
{
    items.split_at(items.len() / 2).1
}

// The entry as which items took a path.
fn taken_in<'s, 'a>(items: &'s [Item<'a>], path: &[u8]) -> Option<&'s Entry<'a>>
    requires { are_rising (map path_of items.now) ≡ true }
    ensures { option_copied result ≡ taken_in path.now items.now }
{
    let mut part = items;
    while let [item, back @ ..] = later_half(part) {
        match item.path().cmp(path) {
            Ordering::Less => part = back,
            Ordering::Greater => part = &part[..part.len() / 2],
            Ordering::Equal => return item.taken(),
        }
    }
    None
}

// The entry as which the last of some images that took a path took it.
fn last_taken<'s, 'a>(images: &'s [ImageBody<'a>], path: &[u8]) -> Option<&'s Entry<'a>>
    ensures { option_copied result ≡ last_taken path.now images.now }
{
    let mut rest = images;
    while let [earlier @ .., image] = rest {
        if let Some(entry) = taken_in(image.items(), path) {
            return Some(entry);
        }
        rest = earlier;
    }
    None
}

// The entry of an item of the last image behind others.
fn entry_behind<'s, 'a>(earlier: &'s [ImageBody<'a>], item: &'s Item<'a>) -> Option<&'s Entry<'a>>
    ensures { option_copied result ≡ entry_behind earlier.now item.now }
{
    match item {
        Item::Taken(entry) => Some(entry),
        Item::Kept(path) => last_taken(earlier, path.bytes()),
    }
}

fn merged<'a>(alloc: Global, images: &[ImageBody<'a>]) -> Result<Stream<'a>, NoMemory>
    requires { 0 < length images.now }
    ensures { IfOk result (λ t. t ≡ tree images.now) }
{
    let [earlier @ .., last] = images else {
        unreachable!();
    };
    let items = last.items();
    let mut entries = Vec::with_capacity(alloc, items.len())?;
    for item in items {
        if let Some(entry) = entry_behind(earlier, item) {
            entries.push(entry.again())?;
        }
    }
    Ok(Stream::new(entries))
}

/// The tree of a chain of images, the first of them first: what restoring the chain's last image gives.
#[tactic(auto, using(crate::proofs::ChainLaw::law_of_chains))]
pub fn merge_chain<'a>(alloc: Global, images: &[ImageBody<'a>]) -> Result<Stream<'a>, NoMemory>
    requires { 0 < length images.now }

    // Each path that the last image names and that some image took, with the time and content of the last one that took it.
    ensures tree { IfOk result (λ t. t ≡ tree images.now) }

    // A chain of a client's backups gives the selected part of the last stream.
    ensures law { (selections : List (List ℕ)) (backups : List Backup) → images.now ≡ chain_of selections backups → AreBackups selections backups
        → IfOk result (λ t. t ≡ selected selections (last_stream backups)) }
{
    merged(alloc, images)
}
