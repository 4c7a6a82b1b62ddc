// The units of a book.
ghost use Rattle.std.specs.Prelude.{◌≡◌};
ghost use Rattle.policy_book.specs.Changes.{unit_add_refusals, unit_of, unit_with};
ghost use Rattle.policy_book.specs.Refusals.{Allows};

use crate::BookFault;
use crate::book::Book;
use crate::refusals::{check_new, check_room};
use site_types::{Name, Unit};
use std::alloc::Global;

const UNIT_LIMIT: usize = 16;

/// What a unit is added with. What isn't given has its default: segments of 131,072 bytes, 4,096 segments a fragment, 8,388,608 slots,
/// and the marks 98 and 80.
#[derive(Clone, Copy, Debug)]
pub struct NewUnit {
    /// Bytes.
    pub capacity: u64,
    /// Bytes.
    pub segment: Option<u32>,
    pub fragment: Option<u32>,
    pub slots: Option<u32>,
    /// The marks, in hundredths of the capacity.
    pub high: Option<u8>,
    pub low: Option<u8>,
}

/// What of a unit is changed, where it is given.
#[derive(Clone, Copy, Debug)]
pub struct UnitChange {
    /// Bytes.
    pub capacity: Option<u64>,
    pub slots: Option<u32>,
    /// The marks, in hundredths of the capacity.
    pub high: Option<u8>,
    pub low: Option<u8>,
}

impl Book {
    pub(crate) fn check_unit_add(&self, alloc: Global, name: &Name) -> Result<(), BookFault>
        ensures { Allows (unit_add_refusals name.now self.now) result }
    {
        check_room(alloc, b"units", self.units.len(), UNIT_LIMIT)?;
        check_new(alloc, &self.units, name)
    }
}

pub fn new_unit(name: Name, number: u8, unit: NewUnit) -> Unit
    ensures { result ≡ unit_of name number unit }
{
    Unit {
        name,
        number,
        capacity: unit.capacity,
        segment: unit.segment.unwrap_or(131_072),
        fragment: unit.fragment.unwrap_or(4_096),
        slots: unit.slots.unwrap_or(8_388_608),
        high: unit.high.unwrap_or(98),
        low: unit.low.unwrap_or(80),
    }
}

pub fn change_unit(unit: &mut Unit, change: UnitChange)
    ensures { unit.new ≡ unit_with change unit.old }
{
    unit.capacity = change.capacity.unwrap_or(unit.capacity);
    unit.slots = change.slots.unwrap_or(unit.slots);
    unit.high = change.high.unwrap_or(unit.high);
    unit.low = change.low.unwrap_or(unit.low);
}
