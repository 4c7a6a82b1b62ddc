ghost use Rattle.std.specs.Prelude.{◌≡◌, ◌≤◌, length, IfOk};
ghost use Rattle.vault_disk.specs.Input.{StartsWith};

use crate::faults::{Plan, raise};
use crate::pieces::copy_from;
use crate::{Failed, Source};
use std::alloc::{AllocError, Global};

/// A source over bytes in memory. It tells what is left.
#[derive(Drop)]
pub struct MemorySource {
    bytes: Vec<u8>,
    at: usize,
    plan: Plan,
    faults: u64,
    ghost within: { at ≤ length bytes.items },
}

impl MemorySource {
    /// A source of these bytes. The reads with these numbers, from 1, are to fail.
    pub fn new(alloc: Global, bytes: &[u8], fails: &[u64]) -> Result<MemorySource, AllocError>
        ensures { IfOk result (λ s. StartsWith bytes.now fails.now (⟦<MemorySource as Source>⟧.input s)) }
    {
        Ok(MemorySource {
            bytes: bytes.to_vec(alloc)?,
            at: 0,
            plan: Plan::new(alloc, fails)?,
            faults: 0,
        })
    }
}

impl Source for MemorySource {
    ghost use Rattle.std.specs.Prelude.{◌≡◌, [], length, drop};

    ghost input = { λ s. record {
      place = [];
      tells = Unit {0};
      left = drop s.at s.bytes.items;
      budget = length (drop s.at s.bytes.items);
      reliable = s.plan.numbers.items ≡ [];
      faults = s.faults;
    } };

    fn read(&mut self, into: &mut [u8]) -> Result<usize, Failed> {
        if self.plan.next_fails() {
            return Err(raise(&mut self.faults));
        }
        let count = copy_from(&self.bytes, self.at, into);
        self.at += count;
        Ok(count)
    }
}
