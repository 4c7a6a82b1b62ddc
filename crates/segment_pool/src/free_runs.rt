// The way to the lowest free slot.
ghost use Rattle.std.specs.Prelude.{◌≡◌, ◌≢◌, ◌+◌, ◌*◌, ◌<◌, ◌≤◌, length, None, IfOk, IsSome, MatchOption, List, Option, ℕ};
ghost use Rattle.segment_pool.specs.Slots.{at_slot};
ghost use Rattle.segment_pool.specs.Free.{Sweeps};
ghost use Rattle.segment_pool.specs.declared.slot.Slot.{Slot as Known};

use crate::NoMemory;
use crate::index::zeros;
use crate::slot::Slot;
use std::alloc::Global;

// Slots are looked through in runs of so many, and there are so many runs.
const RUN: usize = 4_096;

const RUNS: usize = 4_096;

// For each run, up to which slot all of its slots are held.
#[derive(Drop)]
pub(crate) struct FreeRuns {
    from: Vec<u32>,
    ghost runs: { length from.items ≡ 4096 },
}

impl FreeRuns {
    pub(crate) fn new(alloc: Global) -> Result<FreeRuns, NoMemory>
        ensures { (table : List (Option Known)) → IfOk result (λ f. Sweeps table f.from.items) }
    {
        Ok(FreeRuns {
            from: zeros(alloc, RUNS)?,
        })
    }

    // A slot is free now.
    pub(crate) fn free(&mut self, slot: u32)
        requires { slot < 16777216 }
        ensures { (old new : List (Option Known)) → Sweeps old self.old.from.items → at_slot new slot ≡ None
            → ((t : ℕ) → t ≢ slot → at_slot new t ≡ at_slot old t) → Sweeps new self.new.from.items }
    {
        let from = &mut self.from[slot as usize / RUN];
        *from = slot.min(*from);
    }

    // The lowest free slot of a run.
    fn lowest_in(&mut self, slots: &[Option<Slot>], run: usize) -> Option<u32>
        requires few { run < 4096 }
        requires sweeps { Sweeps slots.now self.old.from.items }
        requires short { length slots.now ≤ 16777216 }
        ensures sweeps { Sweeps slots.now self.new.from.items }
        ensures lowest { MatchOption result ((t : ℕ) → run * 4096 ≤ t → t < (run + 1) * 4096 → t < length slots.now → IsSome (at_slot slots.now t)) (λ s. (s < length slots.now) × (at_slot slots.now s ≡ None) × ((t : ℕ) → run * 4096 ≤ t → t < s → IsSome (at_slot slots.now t))) }
    {
        let end = slots.len().min((run + 1) * RUN);
        let mut slot = (self.from[run] as usize).max(run * RUN);
        while slot < end && slots[slot].is_some() {
            slot += 1;
        }
        self.from[run] = slot as u32;
        if slot < end { Some(slot as u32) } else { None }
    }

    // The lowest free slot.
    pub(crate) fn lowest(&mut self, slots: &[Option<Slot>]) -> Option<u32>
        requires sweeps { Sweeps slots.now self.old.from.items }
        requires short { length slots.now ≤ 16777216 }
        ensures sweeps { Sweeps slots.now self.new.from.items }
        ensures lowest { MatchOption result ((t : ℕ) → t < length slots.now → IsSome (at_slot slots.now t)) (λ s. (s < length slots.now) × (at_slot slots.now s ≡ None) × ((t : ℕ) → t < s → IsSome (at_slot slots.now t))) }
    {
        for run in 0..RUNS {
            if let Some(slot) = self.lowest_in(slots, run) {
                return Some(slot);
            }
        }
        None
    }
}
