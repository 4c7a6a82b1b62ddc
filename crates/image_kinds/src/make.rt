ghost use Rattle.std.specs.Prelude.{◌≡◌, nat_lt, false, IfOk, option_map};
ghost use Rattle.std.specs.Option.{option_map_or};
ghost use Rattle.image_kinds.specs.Images.{is_above, selects, is_selected, item_made, made};

use crate::entry::{Entry, Item};
use crate::path::begins_with_slash;
use crate::stream::{ImageBody, Stream};
use site_types::{NoMemory, Text};
use std::alloc::Global;

// Whether a selection is followed in a path by a slash.
fn is_above(selection: &[u8], path: &[u8]) -> bool
    ensures { result ≡ is_above selection.now path.now }
{
    path.starts_with(selection) && begins_with_slash(&path[selection.len()..])
}

fn selects(selection: &[u8], path: &[u8]) -> bool
    ensures { result ≡ selects selection.now path.now }
{
    selection == b"/".as_slice() || selection == path || is_above(selection, path)
}

fn is_selected(selections: &[Text], path: &[u8]) -> bool
    ensures { result ≡ is_selected selections.now path.now }
{
    selections
        .iter()
        .any(|selection| selects(selection.bytes(), path))
}

fn was_before(time: u64, reference: Option<u64>) -> bool
    ensures { result ≡ option_map_or (λ r. nat_lt time r) reference false }
{
    match reference {
        Some(reference) => time < reference,
        None => false,
    }
}

fn made_item<'a>(entry: &Entry<'a>, reference: Option<u64>) -> Item<'a>
    ensures { result ≡ item_made reference entry.now }
{
    if was_before(entry.time, reference) {
        return Item::Kept(entry.path.again());
    }
    Item::Taken(entry.again())
}

/// The image of a stream: it names every path that a selection selects. It takes the files that were changed at or after the reference, in seconds since 1970-01-01T00:00:00Z, or all where there is none, and keeps the others.
pub fn make_image<'a>(
    alloc: Global,
    stream: &Stream<'a>,
    selections: &[Text],
    reference: Option<u64>,
) -> Result<ImageBody<'a>, NoMemory>
    ensures { IfOk result (λ i. i ≡ made selections.now reference stream.now) }
{
    let entries = stream.entries();
    let mut items = Vec::with_capacity(alloc, entries.len())?;
    for entry in entries {
        if is_selected(selections, entry.path.bytes()) {
            items.push(made_item(entry, reference))?;
        }
    }
    Ok(ImageBody::new(items))
}
