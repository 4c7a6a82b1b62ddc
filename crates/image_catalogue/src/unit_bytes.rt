// The bytes that kept copies have on each unit.
ghost use Rattle.std.specs.Prelude.{◌≡◌, ◌+◌, ◌≤◌, ℕ, List, if◌then◌else◌, IfOk, OnOk};
ghost use Rattle.std.specs.Str.{bytes_eq};
ghost use Rattle.image_catalogue.specs.Images.{bytes_on};
ghost use Rattle.image_catalogue.specs.Counts.{IsEntryOf, recorded};

use crate::NoMemory;
use site_types::{Copied, ImageRecord, Name, copy_all};
use std::alloc::{AllocError, Global};

// The bytes of the kept copies on a unit.
#[derive(Debug, Drop)]
pub struct UnitBytes {
    pub unit: Name,
    pub bytes: u64,
}

impl Copied for UnitBytes {
    fn copy(&self, alloc: Global) -> Result<UnitBytes, NoMemory> {
        Ok(UnitBytes {
            unit: self.unit.copy(alloc)?,
            bytes: self.bytes,
        })
    }
}

// The first entry of a unit.
fn entry_of(entries: &[UnitBytes], unit: &Name) -> Option<usize>
    ensures { IsEntryOf entries.now unit.now result }
{
    entries.iter().position(|entry| entry.unit == *unit)
}

// The bytes on a unit, which are none where it has no entry.
pub fn bytes_of(entries: &[UnitBytes], unit: &Name) -> u64
    ensures { result ≡ recorded unit.now entries.now }
{
    match entry_of(entries, unit) {
        Some(at) => entries[at].bytes,
        None => 0,
    }
}

// Adds a copy of this size to the bytes on a unit.
fn raise(
    alloc: Global,
    entries: &mut Vec<UnitBytes>,
    unit: &Name,
    size: u64,
) -> Result<(), NoMemory>
    ensures { (other : List ℕ)
        → OnOk result (recorded other entries.new.items
        ≡ (if bytes_eq unit.now other then size else 0) + recorded other entries.old.items) }
{
    match entry_of(entries, unit) {
        Some(at) => {
            let entry = &mut entries[at];
            entry.bytes = entry.bytes.checked_add(size).ok_or(AllocError)?;
        }
        None => entries.push(UnitBytes {
            unit: unit.copy(alloc)?,
            bytes: size,
        })?,
    }
    Ok(())
}

// The bytes on each unit with an image's kept copies. Where they would pass the end of `u64` there is no memory.
pub fn counted(
    alloc: Global,
    entries: &[UnitBytes],
    image: &ImageRecord,
) -> Result<Vec<UnitBytes>, NoMemory>
    ensures { IfOk result (λ counted. (unit : List ℕ)
        → recorded unit counted.items ≡ bytes_on unit image.now.length image.now.copies + recorded unit entries.now) }
{
    let mut counted = copy_all(alloc, entries)?;
    for copy in image.copies.as_slice() {
        raise(alloc, &mut counted, &copy.unit, image.length)?;
    }
    Ok(counted)
}

// Takes a copy of this size from the bytes on a unit.
fn lower(entries: &mut [UnitBytes], unit: &Name, size: u64)
    requires { size ≤ recorded unit.now entries.old }
    ensures { (other : List ℕ)
        → (if bytes_eq unit.now other then size else 0) + recorded other entries.new ≡ recorded other entries.old }
{
    if let Some(at) = entry_of(entries, unit) {
        let entry = &mut entries[at];
        entry.bytes -= size;
    }
}

// Takes an image's kept copies from the bytes on each unit.
pub fn uncount(entries: &mut [UnitBytes], image: &ImageRecord)
    requires { (unit : List ℕ) → bytes_on unit image.now.length image.now.copies ≤ recorded unit entries.old }
    ensures { (unit : List ℕ)
        → bytes_on unit image.now.length image.now.copies + recorded unit entries.new ≡ recorded unit entries.old }
{
    for copy in image.copies.as_slice() {
        lower(entries, &copy.unit, image.length);
    }
}
