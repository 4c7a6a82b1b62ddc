ghost use Rattle.std.specs.Prelude.{◌≡◌, ◌++◌, length, true, OnOk, IfOk};
ghost use Rattle.image_kinds.specs.Paths.{is_path_length};
ghost use Rattle.image_kinds.specs.Streams.{path_of, spelled_path, spelled_content, spelled_entry, spelled_item, spelled_stream, spelled_image, IsStream, IsImage};

use crate::entry::{Entry, Item};
use crate::format::Format;
use crate::stream::{ImageBody, Stream};
use site_types::NoMemory;
use std::alloc::Global;

fn write_path(out: &mut Vec<u8>, path: &[u8]) -> Result<(), NoMemory>
    requires { is_path_length (length path.now) ≡ true }
    ensures { OnOk result (out.new.items ≡ out.old.items ++ spelled_path path.now) }
{
    out.extend_from_slice(&(path.len() as u16).to_be_bytes())?;
    out.extend_from_slice(path)?;
    Ok(())
}

fn write_content(out: &mut Vec<u8>, content: &[u8]) -> Result<(), NoMemory>
    ensures { OnOk result (out.new.items ≡ out.old.items ++ spelled_content content.now) }
{
    out.extend_from_slice(&(content.len() as u64).to_be_bytes())?;
    out.extend_from_slice(content)?;
    Ok(())
}

fn write_entry(out: &mut Vec<u8>, entry: &Entry<'_>) -> Result<(), NoMemory>
    requires { is_path_length (length entry.now.path) ≡ true }
    ensures { OnOk result (out.new.items ≡ out.old.items ++ spelled_entry entry.now) }
{
    out.push(1)?;
    write_path(out, entry.path.bytes())?;
    out.extend_from_slice(&entry.time.to_be_bytes())?;
    write_content(out, entry.content.bytes())?;
    Ok(())
}

fn write_item(out: &mut Vec<u8>, item: &Item<'_>) -> Result<(), NoMemory>
    requires { is_path_length (length (path_of item.now)) ≡ true }
    ensures { OnOk result (out.new.items ≡ out.old.items ++ spelled_item item.now) }
{
    match item {
        Item::Taken(entry) => write_entry(out, entry)?,
        Item::Kept(path) => {
            out.push(2)?;
            write_path(out, path.bytes())?;
        }
    }
    Ok(())
}

// The bytes of a taken entry beside its path and its content: its tag, its time, and their lengths.
const ENTRY_FRAME: usize = 1 + 2 + 8 + 8;

// The bytes of a kept entry beside its path: its tag, and the path's length.
const KEPT_FRAME: usize = 1 + 2;

// The letters, and the byte at the end.
const ENDS: usize = 4 + 1;

// How many bytes of memory to ask for at once: a spelling that grew would be copied again and again.
fn room_for(entry: &Entry<'_>) -> usize {
    let (path, content) = (entry.path.bytes(), entry.content.bytes());
    ENTRY_FRAME
        .saturating_add(path.len())
        .saturating_add(content.len())
}

fn room_for_item(item: &Item<'_>) -> usize {
    match item {
        Item::Taken(entry) => room_for(entry),
        Item::Kept(path) => KEPT_FRAME.saturating_add(path.bytes().len()),
    }
}

fn room_for_all(entries: &[Entry<'_>]) -> usize {
    let mut room = ENDS;
    for entry in entries {
        room = room.saturating_add(room_for(entry));
    }
    room
}

fn room_for_items(items: &[Item<'_>]) -> usize {
    let mut room = ENDS;
    for item in items {
        room = room.saturating_add(room_for_item(item));
    }
    room
}

/// The one spelling of a stream.
pub fn encode_stream(alloc: Global, value: &Stream<'_>) -> Result<Vec<u8>, NoMemory>
    ensures spelling { IfOk result (λ v. v.items ≡ spelled_stream value.now) }

    // So it is read again.
    ensures stream { IsStream value.now }
{
    let entries = value.entries();
    let mut out = Vec::with_capacity(alloc, room_for_all(entries))?;
    out.extend_from_slice(Format::Stream.letters())?;
    for entry in entries {
        write_entry(&mut out, entry)?;
    }
    out.push(0)?;
    Ok(out)
}

/// The one spelling of an image.
pub fn encode_image(alloc: Global, value: &ImageBody<'_>) -> Result<Vec<u8>, NoMemory>
    ensures spelling { IfOk result (λ v. v.items ≡ spelled_image value.now) }

    // So it is read again.
    ensures image { IsImage value.now }
{
    let items = value.items();
    let mut out = Vec::with_capacity(alloc, room_for_items(items))?;
    out.extend_from_slice(Format::Image.letters())?;
    for item in items {
        write_item(&mut out, item)?;
    }
    out.push(0)?;
    Ok(out)
}
