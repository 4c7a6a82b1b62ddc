// Copies of values that hold memory.
ghost use Rattle.std.specs.Prelude.{◌≡◌, IfOk};

use crate::{ListOf, Mode, Name, NoMemory, Operation, Schedule, Text, Unit, Windows};
use std::alloc::Global;

/// What can be copied where there is memory.
pub trait Copied: Drop {
    /// An equal value.
    fn copy(&self, alloc: Global) -> Result<Self, NoMemory>
        ensures { IfOk result (λ copy. copy ≡ self.now) };
}

/// An equal list.
pub fn copy_all<T: Copied>(alloc: Global, list: &[T]) -> Result<Vec<T>, NoMemory>
    ensures { IfOk result (λ copies. copies.items ≡ list.now) }
{
    let mut copies = Vec::new(alloc);
    for item in list {
        copies.push(item.copy(alloc)?)?;
    }
    Ok(copies)
}

impl Copied for Name {
    fn copy(&self, alloc: Global) -> Result<Name, NoMemory> {
        Name::copy(self, alloc)
    }
}

impl Copied for Text {
    fn copy(&self, alloc: Global) -> Result<Text, NoMemory> {
        Text::new(alloc, self.bytes())
    }
}

impl Copied for Unit {
    fn copy(&self, alloc: Global) -> Result<Unit, NoMemory> {
        Ok(Unit {
            name: self.name.copy(alloc)?,
            number: self.number,
            capacity: self.capacity,
            segment: self.segment,
            fragment: self.fragment,
            slots: self.slots,
            high: self.high,
            low: self.low,
        })
    }
}

impl Copied for Windows {
    fn copy(&self, alloc: Global) -> Result<Windows, NoMemory> {
        match self {
            Windows::Always => Ok(Windows::Always),
            Windows::Listed(listed) => Ok(Windows::Listed(ListOf::from_vec(
                listed.as_slice().to_vec(alloc)?,
            ))),
        }
    }
}

impl Copied for Operation {
    fn copy(&self, alloc: Global) -> Result<Operation, NoMemory> {
        Ok(Operation {
            backup: self.backup,
            source: self.source,
            unit: self.unit.copy(alloc)?,
            retention: self.retention,
            windows: self.windows.copy(alloc)?,
        })
    }
}

impl Copied for Mode {
    fn copy(&self, alloc: Global) -> Result<Mode, NoMemory> {
        match self {
            Mode::Frequency(seconds) => Ok(Mode::Frequency(*seconds)),
            Mode::Calendar(items) => Ok(Mode::Calendar(ListOf::from_vec(
                items.as_slice().to_vec(alloc)?,
            ))),
        }
    }
}

impl Copied for Schedule {
    fn copy(&self, alloc: Global) -> Result<Schedule, NoMemory> {
        Ok(Schedule {
            name: self.name.copy(alloc)?,
            kind: self.kind,
            mode: self.mode.copy(alloc)?,
            windows: self.windows.copy(alloc)?,
        })
    }
}
