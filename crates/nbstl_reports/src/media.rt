ghost use Rattle.std.specs.Prelude.{◌≡◌, ◌+◌, ◌*◌, ◌^◌, ◌<◌, ◌++◌, OnOk, OnErr, map, option_copied};
ghost use Rattle.std.specs.List.{range_with_len};
ghost use Rattle.nbstl_reports.specs.MediaLines.{fragment_count, fragment_fields, fragment_size, fragments_of, media_lines, unit_named};
ghost use Rattle.nbstl_reports.specs.Lines.{line, lines};
ghost use Rattle.nbstl_reports.specs.Fields.{StartsWith};

use crate::NoMemory;
use crate::line::{Field, push_line, whole_or_none};
use site_types::{CopyRecord, ImageRecord, Name, Unit};
use std::alloc::Global;

/// The fragments of an image's copies: a line `ID COPY FRAGMENT UNIT LENGTH` for each of them, by copy and then by fragment from
/// 1, with LENGTH in bytes. A fragment is a run of as many segments as the copy's unit says, and the last may have fewer bytes. A
/// copy of no bytes has no fragment, and one whose unit isn't among these has no line.
pub fn media_lines(
    _alloc: Global,
    image: &ImageRecord,
    units: &[Unit],
    out: &mut Vec<u8>,
) -> Result<(), NoMemory>
    ensures written { OnOk result (out.new.items ≡ out.old.items ++ media_lines image.now units.now) }
    ensures unchanged { OnErr result (out.new.items ≡ out.old.items) }
{
    let before = out.len();
    let written = push_media(image, units, out);
    whole_or_none(out, before, written)
}

fn push_media(image: &ImageRecord, units: &[Unit], out: &mut Vec<u8>) -> Result<(), NoMemory>
    ensures written { OnOk result (out.new.items ≡ out.old.items ++ media_lines image.now units.now) }
    ensures begun { OnErr result (StartsWith out.old.items out.new.items) }
{
    for copy in image.copies.as_slice() {
        push_copy(image, copy, units, out)?;
    }
    Ok(())
}

fn push_copy<'a>(
    image: &'a ImageRecord,
    copy: &'a CopyRecord,
    units: &[Unit],
    out: &mut Vec<u8>,
) -> Result<(), NoMemory>
    ensures written { OnOk result (out.new.items ≡ out.old.items ++ lines (fragments_of image.now copy.now (unit_named copy.now.unit units.now))) }
    ensures begun { OnErr result (StartsWith out.old.items out.new.items) }
{
    match unit_named(units, &copy.unit) {
        Some(unit) => push_fragments(image, copy, fragment_size(unit), out),
        None => Ok(()),
    }
}

fn unit_named<'a>(units: &'a [Unit], name: &Name) -> Option<&'a Unit>
    ensures { option_copied result ≡ unit_named name.now units.now }
{
    units.iter().find(|unit| unit.name == *name)
}

fn push_fragments<'a>(
    image: &'a ImageRecord,
    copy: &'a CopyRecord,
    size: u64,
    out: &mut Vec<u8>,
) -> Result<(), NoMemory>
    ensures written { OnOk result (out.new.items ≡ out.old.items ++ lines (map (fragment_fields image.now copy.now size) (range_with_len 0 (fragment_count size image.now.length)))) }
    ensures begun { OnErr result (StartsWith out.old.items out.new.items) }
{
    for before in 0..fragment_count(size, image.length) {
        push_fragment(image, copy, size, before, out)?;
    }
    Ok(())
}

fn fragment_size(unit: &Unit) -> u64
    ensures { result ≡ fragment_size unit.now }
{
    u64::from(unit.segment) * u64::from(unit.fragment)
}

fn fragment_count(size: u64, length: u64) -> u64
    ensures { result ≡ fragment_count size length }
{
    if size == 0 { 0 } else { length.div_ceil(size) }
}

// The fragment that stands behind so many others.
fn push_fragment<'a>(
    image: &'a ImageRecord,
    copy: &'a CopyRecord,
    size: u64,
    before: u64,
    out: &mut Vec<u8>,
) -> Result<(), NoMemory>
    requires within { before < fragment_count size image.now.length }
    requires fits { before + 1 < 2 ^ 64 }
    ensures written { OnOk result (out.new.items ≡ out.old.items ++ line (fragment_fields image.now copy.now size before)) }
    ensures begun { OnErr result (StartsWith out.old.items out.new.items) }
{
    let fields = [
        Field::Id(&image.id),
        Field::Number(u64::from(copy.number)),
        Field::Number(before + 1),
        Field::Text(copy.unit.bytes()),
        Field::Number(size.min(image.length - before * size)),
    ];
    push_line(out, &fields)
}
