// Counts of faults, and which calls are to fail.
ghost use Rattle.std.specs.Prelude.{◌≡◌, ◌≤◌, ◌↔◌, [], IsTrue, IfOk, Ok, Contains};
ghost use Rattle.vault_disk.specs.Steps.{HasCause, Rose};

use crate::Failed;
use std::alloc::{AllocError, Global};
use std::io;

// Counts a failure.
pub(crate) fn raise(faults: &mut u64) -> Failed
    ensures rose { Rose faults.old faults.new }
    ensures kept { faults.old ≤ faults.new }
{
    *faults = faults.saturating_add(1);
    Failed
}

// What a call of the system gave, where a failure is counted.
pub(crate) fn counted<T: Drop>(done: io::Result<T>, faults: &mut u64) -> Result<T, Failed>
    ensures value { IfOk result (λ v. done ≡ Ok v) }
    ensures cause { HasCause faults.old faults.new result }
{
    match done {
        Ok(value) => Ok(value),
        Err(_) => Err(raise(faults)),
    }
}

// Which calls of an object are to fail, by their numbers from 1.
#[derive(Drop)]
pub(crate) struct Plan {
    numbers: Vec<u64>,
    calls: u64,
}

impl Plan {
    pub(crate) fn new(alloc: Global, fails: &[u64]) -> Result<Plan, AllocError>
        ensures { IfOk result (λ p. p.numbers.items ≡ fails.now) }
    {
        Ok(Plan {
            numbers: fails.to_vec(alloc)?,
            calls: 0,
        })
    }

    // Counts a call, and says whether it is to fail.
    pub(crate) fn next_fails(&mut self) -> bool
        ensures same { self.new.numbers.items ≡ self.old.numbers.items }
        ensures planned { IsTrue result ↔ Contains self.new.numbers.items self.new.calls }
        ensures never { IsTrue result → self.old.numbers.items ≡ [] → ⊥ }
    {
        self.calls = self.calls.saturating_add(1);
        self.numbers.contains(&self.calls)
    }
}
