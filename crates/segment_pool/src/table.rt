// The table of a pool's slots.
ghost use Rattle.std.specs.Prelude.{◌≡◌, ◌+◌, ◌-◌, ◌<◌, ◌≤◌, ◌++◌, [], length, Some, None, is_some, replicate, slice_set, IfOk, OnOk, OnErr, IsSome, MatchOption, ℕ};
ghost use Rattle.std.specs.List.{count_by};
ghost use Rattle.segment_pool.specs.Index.{IsNextBelow, bits_of, leading_bits};
ghost use Rattle.segment_pool.specs.Slots.{at_slot};

use crate::NoMemory;
use crate::free_runs::FreeRuns;
use crate::index::Index;
use crate::slot::Slot;
use std::alloc::Global;
use std::marker::Model;

// The slots, each held or free, with the ways to a digest's slots and to the lowest free one.
#[derive(Drop)]
pub(crate) struct Table {
    index: Index,
    free: FreeRuns,
    held: u32,
}

impl Model for Table {
    ghost use Rattle.std.specs.Prelude.{◌≡◌, List, Option, is_some};
    ghost use Rattle.std.specs.List.{count_by};
    ghost use Rattle.segment_pool.specs.declared.slot.Slot.{Slot};
    ghost use Rattle.segment_pool.specs.Free.{Sweeps};

    ghost Value = { List (Option Slot) };

    ghost view = { λ t. t.index.slots.items };

    ghost invariant = { λ t. Sweeps t.index.slots.items t.free.from.items × (t.held ≡ count_by is_some t.index.slots.items) };
}

impl Table {
    // A table of no slots.
    pub(crate) fn new(alloc: Global) -> Result<Table, NoMemory>
        ensures { IfOk result (λ t. t ≡ []) }
    {
        Ok(Table {
            index: Index::new(alloc)?,
            free: FreeRuns::new(alloc)?,
            held: 0,
        })
    }

    // How many slots it has.
    pub(crate) fn len(&self) -> usize
        ensures length { result ≡ length self.now }
        ensures short { length self.now ≤ 16777216 }
    {
        self.index.slots.len()
    }

    // How many of them are held.
    pub(crate) fn held(&self) -> u32
        ensures count { result ≡ count_by is_some self.now }
        ensures short { result ≤ length self.now }
        ensures few { length self.now ≤ 16777216 }
    {
        let _ = self.index.slots.len();
        self.held
    }

    // What is known of a slot.
    pub(crate) fn at(&self, slot: u32) -> Option<Slot>
        ensures { result ≡ at_slot self.now slot }
    {
        if (slot as usize) < self.index.slots.len() {
            self.index.slots[slot as usize]
        } else {
            None
        }
    }

    // The greatest slot whose digest has the same leading bits.
    pub(crate) fn first(&self, digest: &[u8; 32]) -> Option<u32>
        ensures next { IsNextBelow self.now (leading_bits digest.now) 16777216 result }
        ensures short { length self.now ≤ 16777216 }
    {
        self.index.first(digest)
    }

    // The greatest one below a held slot.
    pub(crate) fn next(&self, slot: u32) -> Option<u32>
        requires { IsSome (at_slot self.now slot) }
        ensures { (bits : ℕ) → bits_of self.now slot ≡ Some bits → IsNextBelow self.now bits slot result }
    {
        self.index.next(slot)
    }

    // The lowest free slot, and None exactly where all are held.
    pub(crate) fn lowest_free(&mut self) -> Option<u32>
        ensures same { self.new ≡ self.old }
        ensures lowest { MatchOption result (count_by is_some self.old ≡ length self.old) (λ s. (s < length self.old) × (at_slot self.old s ≡ None) × ((t : ℕ) → t < s → IsSome (at_slot self.old t))) }
    {
        self.free.lowest(&self.index.slots)
    }

    // Adds free slots up to so many.
    pub(crate) fn grow(&mut self, slots: usize) -> Result<(), NoMemory>
        requires { slots ≤ 16777216 }
        ensures ok { OnOk result (self.new ≡ self.old ++ replicate (slots - length self.old) None) }
        ensures err { OnErr result (self.new ≡ self.old) }
    {
        self.index.grow(slots)
    }

    // Holds a free slot.
    pub(crate) fn hold(&mut self, slot: u32, what: Slot)
        requires within { slot < length self.old }
        requires free { at_slot self.old slot ≡ None }
        ensures { self.new ≡ slice_set self.old slot (Some what) }
    {
        self.index.hold(slot as usize, what);
        self.held += 1;
    }

    // Frees a held slot.
    pub(crate) fn free(&mut self, slot: u32, digest: &[u8; 32])
        requires { bits_of self.old slot ≡ Some (leading_bits digest.now) }
        ensures { self.new ≡ slice_set self.old slot None }
    {
        self.index.free(slot as usize, digest);
        self.free.free(slot);
        self.held -= 1;
    }

    // Changes what is known of a held slot, but for its digest.
    pub(crate) fn change(&mut self, slot: u32, what: Slot)
        requires { bits_of self.old slot ≡ Some (leading_bits what.digest) }
        ensures { self.new ≡ slice_set self.old slot (Some what) }
    {
        self.index.change(slot as usize, what);
    }
}
