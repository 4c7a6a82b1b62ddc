ghost use Rattle.std.specs.Prelude.{◌≡◌, ◌<◌, ◌≤◌, length, IfOk, All};
ghost use Rattle.vault_disk.specs.Ticks.{StartsAt};

use crate::faults::{Plan, raise};
use crate::{Clock, Failed};
use std::alloc::{AllocError, Global};

/// A clock that gives the moments of a list, and past the last that one again. It tells the moments that it gave.
#[derive(Drop)]
pub struct MemoryClock {
    moments: Vec<u64>,
    given: u64,
    plan: Plan,
    faults: u64,
    ghost some: { 0 < length moments.items },
    ghost limited: { All (λ m. m ≤ 250000000000) moments.items },
}

impl MemoryClock {
    /// A clock of these moments. The calls with these numbers, from 1, are to fail.
    pub fn new(alloc: Global, moments: &[u64], fails: &[u64]) -> Result<MemoryClock, AllocError>
        requires some { 0 < length moments.now }
        requires limited { All (λ m. m ≤ 250000000000) moments.now }
        ensures { IfOk result (λ c. StartsAt moments.now fails.now (⟦<MemoryClock as Clock>⟧.ticks c)) }
    {
        Ok(MemoryClock {
            moments: moments.to_vec(alloc)?,
            given: 0,
            plan: Plan::new(alloc, fails)?,
            faults: 0,
        })
    }
}

impl Clock for MemoryClock {
    ghost use Rattle.std.specs.Prelude.{◌≡◌, []};
    ghost use Rattle.vault_disk.specs.Ticks.{moment_at, given};

    ghost ticks = { λ c. record {
      place = [];
      tells = Unit {0};
      gave = given c.moments.items c.given;
      may_give = λ n m. m ≡ moment_at c.moments.items n;
      reliable = c.plan.numbers.items ≡ [];
      faults = c.faults;
    } };

    #[tactic(auto, using(crate::proofs::Given::given_next, crate::proofs::Given::length_given))]
    fn now(&mut self) -> Result<u64, Failed> {
        if self.plan.next_fails() || self.given == u64::MAX {
            return Err(raise(&mut self.faults));
        }
        let last = self.moments.len() - 1;
        let moment = self.moments[(self.given as usize).min(last)];
        self.given += 1;
        Ok(moment)
    }
}
