ghost use Rattle.std.specs.Prelude.{◌≡◌, ◌++◌, count_by, IfOk, OnOk, OnErr};
ghost use Rattle.std.specs.Str.{bytes_eq};
ghost use Rattle.nbstl_reports.specs.Lines.{line};
ghost use Rattle.nbstl_reports.specs.UnitLines.{copies_on, stats_fields, stats_lines, unit_fields, unit_lines};
ghost use Rattle.nbstl_reports.specs.Fields.{StartsWith};

use crate::NoMemory;
use crate::line::{Field, push_line, whole_or_none};
use image_catalogue::Catalogue;
use site_types::{CopyRecord, Name, Unit};
use std::alloc::{AllocError, Global};

/// What is stored of a unit: how many distinct segments, and their bytes.
#[derive(Clone, Copy, Debug)]
pub struct StoredSize {
    pub segments: u64,
    pub bytes: u64,
}

/// The units: a line `NAME USED CAPACITY HIGH LOW` for each of them, in their order. USED are the bytes of the kept copies on the
/// unit, before equal segments are stored once, and CAPACITY is in bytes.
pub fn unit_lines(
    _alloc: Global,
    units: &[Unit],
    images: &Catalogue,
    out: &mut Vec<u8>,
) -> Result<(), NoMemory>
    ensures written { OnOk result (out.new.items ≡ out.old.items ++ unit_lines units.now images.now) }
    ensures unchanged { OnErr result (out.new.items ≡ out.old.items) }
{
    let before = out.len();
    let written = push_units(units, images, out);
    whole_or_none(out, before, written)
}

fn push_units(units: &[Unit], images: &Catalogue, out: &mut Vec<u8>) -> Result<(), NoMemory>
    ensures written { OnOk result (out.new.items ≡ out.old.items ++ unit_lines units.now images.now) }
    ensures begun { OnErr result (StartsWith out.old.items out.new.items) }
{
    for unit in units {
        push_unit(unit, images, out)?;
    }
    Ok(())
}

fn push_unit(unit: &Unit, images: &Catalogue, out: &mut Vec<u8>) -> Result<(), NoMemory>
    ensures written { OnOk result (out.new.items ≡ out.old.items ++ line (unit_fields images.now unit.now)) }
    ensures begun { OnErr result (StartsWith out.old.items out.new.items) }
{
    let fields = [
        Field::Text(unit.name.bytes()),
        Field::Number(images.used(&unit.name)),
        Field::Number(unit.capacity),
        Field::Number(u64::from(unit.high)),
        Field::Number(u64::from(unit.low)),
    ];
    push_line(out, &fields)
}

/// What is stored on units: a line `NAME SEGMENTS BYTES COPIES USED` for each of them, in their order, with what is stored at the
/// same place. SEGMENTS and BYTES count each distinct segment once; COPIES are the kept copies on the unit, and USED their bytes.
pub fn stats_lines(
    _alloc: Global,
    units: &[Unit],
    images: &Catalogue,
    stored: &[StoredSize],
    out: &mut Vec<u8>,
) -> Result<(), NoMemory>
    ensures written { OnOk result (out.new.items ≡ out.old.items ++ stats_lines units.now images.now stored.now) }
    ensures unchanged { OnErr result (out.new.items ≡ out.old.items) }
{
    let before = out.len();
    let written = push_stats(units, images, stored, out);
    whole_or_none(out, before, written)
}

fn push_stats(
    units: &[Unit],
    images: &Catalogue,
    stored: &[StoredSize],
    out: &mut Vec<u8>,
) -> Result<(), NoMemory>
    ensures written { OnOk result (out.new.items ≡ out.old.items ++ stats_lines units.now images.now stored.now) }
    ensures begun { OnErr result (StartsWith out.old.items out.new.items) }
{
    for (unit, stored) in units.iter().zip(stored) {
        push_unit_stats(unit, images, *stored, out)?;
    }
    Ok(())
}

fn push_unit_stats(
    unit: &Unit,
    images: &Catalogue,
    stored: StoredSize,
    out: &mut Vec<u8>,
) -> Result<(), NoMemory>
    ensures written { OnOk result (out.new.items ≡ out.old.items ++ line (stats_fields images.now (unit.now, stored))) }
    ensures begun { OnErr result (StartsWith out.old.items out.new.items) }
{
    let fields = [
        Field::Text(unit.name.bytes()),
        Field::Number(stored.segments),
        Field::Number(stored.bytes),
        Field::Number(copies_on(images, &unit.name)?),
        Field::Number(images.used(&unit.name)),
    ];
    push_line(out, &fields)
}

// The kept copies on a unit. Where they would pass the end of `u64`, as no memory has room for, there is no memory.
fn copies_on(images: &Catalogue, unit: &Name) -> Result<u64, NoMemory>
    ensures { IfOk result (λ count. count ≡ copies_on unit.now images.now) }
{
    let mut count = 0u64;
    for image in images.iter() {
        let here = count_on(image.copies.as_slice(), unit) as u64;
        count = count.checked_add(here).ok_or(AllocError)?;
    }
    Ok(count)
}

fn count_on(copies: &[CopyRecord], unit: &Name) -> usize
    ensures { result ≡ count_by (λ copy. bytes_eq copy.unit unit.now) copies.now }
{
    copies.iter().filter(|copy| copy.unit == *unit).count()
}
