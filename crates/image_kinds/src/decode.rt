ghost use Rattle.std.specs.Prelude.{◌≡◌, ◌≤◌, ◌-◌, ℕ, List, length, map, IfOk, IfErr, Ok, Err};
ghost use Rattle.std.specs.List.{filter_map};
ghost use Rattle.image_kinds.specs.Streams.{taken_of, AreItems, IsStream, IsImage, spelled, spelled_stream, spelled_image, last_path, IsBad, Entry, Item, Format};
ghost use Rattle.image_kinds.specs.Decoding.{IsFault, IsStreamFault, IsReadAs};
ghost use Rattle.image_kinds.specs.Reading.{AreBytes, stream_in, image_in, IsReading};
ghost use Rattle.image_kinds.specs.declared.format.Format.TheVariants as format;
ghost use Rattle.image_kinds.specs.declared.decode.StreamFault.TheVariants as fault;

use crate::cursor::Cursor;
use crate::entry::{Entry, Item};
use crate::format::Format;
use crate::stream::{ImageBody, Stream};
use site_types::{FieldFault, NoMemory};
use std::alloc::Global;

/// Why bytes weren't read as a stream or an image.
#[derive(Clone, Copy, Debug)]
pub enum StreamFault {
    /// The first field that breaks its rule begins at this offset, in bytes. Where the input ends within a field it is the input's length.
    Bad { offset: u64 },
    NoMemory,
}

impl From<NoMemory> for StreamFault {
    ghost from_gives = { λ _ e. e ≡ fault.NoMemory };

    fn from(_: NoMemory) -> StreamFault {
        StreamFault::NoMemory
    }
}

// The path of the last item, and no bytes where there is none.
fn last_path<'a>(items: &[Item<'a>]) -> &'a [u8]
    ensures { result.now ≡ last_path items.now }
{
    match items.last() {
        Some(item) => item.path(),
        None => &[],
    }
}

// The items that these bytes spell.
fn read_items<'a>(
    alloc: Global,
    format: Format,
    bytes: &'a [u8],
) -> Result<Vec<Item<'a>>, FieldFault>
    ensures found { IfOk result (λ v. AreItems format v.items × (bytes.now ≡ spelled format v.items)) }
    ensures fault { IfErr result (IsFault format bytes.now) }
{
    let mut cursor = Cursor::new(bytes);
    cursor.letters(format)?;
    let mut items = Vec::new(alloc);
    while let Some(item) = cursor.item(format, last_path(&items))? {
        items.push(item)?;
    }
    Ok(items)
}

fn decode<'a>(alloc: Global, format: Format, bytes: &'a [u8]) -> Result<Vec<Item<'a>>, StreamFault>
    ensures found { IfOk result (λ v. AreItems format v.items × (bytes.now ≡ spelled format v.items)) }
    ensures fault { IfErr result (IsStreamFault format bytes.now) }
{
    match read_items(alloc, format, bytes) {
        Ok(items) => Ok(items),
        Err(FieldFault::Broken(left)) => Err(StreamFault::Bad {
            offset: (bytes.len() - left) as u64,
        }),
        Err(FieldFault::NoMemory) => Err(StreamFault::NoMemory),
    }
}

fn entry_in(item: Item<'_>) -> Option<Entry<'_>>
    ensures { result ≡ taken_of item.entry }
{
    match item {
        Item::Taken(entry) => Some(entry),
        Item::Kept(_) => None,
    }
}

// The entries that these items took, which are moved.
fn entries_in<'a>(alloc: Global, items: Vec<Item<'a>>) -> Result<Vec<Entry<'a>>, NoMemory>
    ensures { IfOk result (λ v. v.items ≡ filter_map taken_of items.entry.items) }
{
    items.into_iter().filter_map(entry_in).collect(alloc)
}

fn read_stream(alloc: Global, bytes: &[u8]) -> Result<Stream<'_>, StreamFault>
    ensures found { IfOk result (λ s. IsStream s × (bytes.now ≡ spelled_stream s)) }
    ensures fault { IfErr result (IsStreamFault format.Stream bytes.now) }
{
    let items = decode(alloc, Format::Stream, bytes)?;
    Ok(Stream::new(entries_in(alloc, items)?))
}

fn read_image(alloc: Global, bytes: &[u8]) -> Result<ImageBody<'_>, StreamFault>
    ensures found { IfOk result (λ i. IsImage i × (bytes.now ≡ spelled_image i)) }
    ensures fault { IfErr result (IsStreamFault format.Image bytes.now) }
{
    Ok(ImageBody::new(decode(alloc, Format::Image, bytes)?))
}

/// The stream that these bytes spell. Its paths and contents lie in them.
#[tactic(auto, using(crate::proofs::Values::only_stream, crate::proofs::Readings::stream_reading))]
pub fn decode_stream<'a>(alloc: Global, bytes: &'a [u8]) -> Result<Stream<'a>, StreamFault>
    // What is read is spelled so, each byte of it.
    ensures found { IfOk result (λ s. IsStream s × (bytes.now ≡ spelled_stream s)) }

    // What is spelled so is read, unless memory runs out.
    ensures only { (s : List Entry) → IsStream s → bytes.now ≡ spelled_stream s → IsReadAs result s }

    // The offset of a fault is that of the first field that breaks its rule.
    ensures fault { IfErr result (IsStreamFault format.Stream bytes.now) }

    // The same as a function of the bytes.
    ensures reads { IsReading result (stream_in bytes.now) }
{
    read_stream(alloc, bytes)
}

/// The image that these bytes spell. Its paths and contents lie in them.
#[tactic(auto, using(crate::proofs::Values::only_image, crate::proofs::Readings::image_reading))]
pub fn decode_image<'a>(alloc: Global, bytes: &'a [u8]) -> Result<ImageBody<'a>, StreamFault>
    // What is read is spelled so, each byte of it.
    ensures found { IfOk result (λ i. IsImage i × (bytes.now ≡ spelled_image i)) }

    // What is spelled so is read, unless memory runs out.
    ensures only { (i : List Item) → IsImage i → bytes.now ≡ spelled_image i → IsReadAs result i }

    // The offset of a fault is that of the first field that breaks its rule.
    ensures fault { IfErr result (IsStreamFault format.Image bytes.now) }

    // The same as a function of the bytes.
    ensures reads { IsReading result (image_in bytes.now) }
{
    read_image(alloc, bytes)
}

/// What bytes spell is one value, and where they break is one offset; none that spell a value break.
pub fn one_reading()
    ensures stream { (s t : List Entry) → IsStream s → IsStream t → spelled_stream s ≡ spelled_stream t → s ≡ t }
    ensures image { (i j : List Item) → IsImage i → IsImage j → spelled_image i ≡ spelled_image j → i ≡ j }
    ensures offset { (f : Format) (bytes : List ℕ) (m n : ℕ) → IsBad f bytes m → IsBad f bytes n → m ≡ n }
    ensures apart { (f : Format) (items : List Item) (n : ℕ) → AreItems f items → IsBad f (spelled f items) n → ⊥ }
{}

/// The functions that say what bytes spell, `stream_in` and `image_in`, say it as the spelling does.
pub fn reading_is_the_grammar()
    ensures stream_read { (bytes : List ℕ) (s : List Entry) → AreBytes bytes → stream_in bytes ≡ Ok s → IsStream s × (bytes ≡ spelled_stream s) }
    ensures stream_bad { (bytes : List ℕ) (n : ℕ) → AreBytes bytes → stream_in bytes ≡ Err n → IsBad format.Stream bytes n }
    ensures stream_again { (s : List Entry) → IsStream s → stream_in (spelled_stream s) ≡ Ok s }
    ensures image_read { (bytes : List ℕ) (i : List Item) → AreBytes bytes → image_in bytes ≡ Ok i → IsImage i × (bytes ≡ spelled_image i) }
    ensures image_bad { (bytes : List ℕ) (n : ℕ) → AreBytes bytes → image_in bytes ≡ Err n → IsBad format.Image bytes n }
    ensures image_again { (i : List Item) → IsImage i → image_in (spelled_image i) ≡ Ok i }
{}
