ghost use Rattle.std.specs.Prelude.{◌≡◌, ◌⊎◌, false};
ghost use Rattle.step_turn.specs.Counters.{answer_of, tally_of, tally_after};

use crate::steps::{Steps, StepsBy};
use std::alloc::Global;

/// A counter with a limit, whose calls fail where they are told to.
#[derive(Drop)]
pub struct Counter {
    count: u64,
    limit: u64,
    stopped: bool,
    faults: u64,
    calls: u64,
    failing: Vec<u64>,
    acts: bool,
}

/// What the counter answers.
#[derive(Clone, Copy, Debug, PartialEq, Eq)]
pub enum Counted {
    /// The amount was added, and this is the count now.
    Now(u64),
    /// The amount would have passed the limit.
    AtLimit,
    /// The call failed. The amount was added, or it wasn't.
    Failed,
}

impl Counter {
    /// A counter that stands at 0. Its calls, steps and openings alike, have the numbers 1, 2, and so on, and those in the list
    /// fail. A step that fails adds its amount where `acts` is set.
    pub fn new(limit: u64, failing: Vec<u64>, acts: bool) -> Counter
        ensures starts { (result.count ≡ 0) × (result.limit ≡ limit) × (result.stopped ≡ false) × (result.faults ≡ 0) }
        ensures fails { (result.calls ≡ 0) × (result.failing ≡ failing) × (result.acts ≡ acts) }
    {
        Counter {
            count: 0,
            limit,
            stopped: false,
            faults: 0,
            calls: 0,
            failing,
            acts,
        }
    }

    /// The count.
    pub fn count(&self) -> u64
        ensures { result ≡ self.now.count }
    {
        self.count
    }

    // Whether the next call fails.
    fn fails(&mut self) -> bool
        ensures same { (self.new.count ≡ self.old.count) × (self.new.limit ≡ self.old.limit) × (self.new.stopped ≡ self.old.stopped) × (self.new.faults ≡ self.old.faults) }
    {
        self.calls = self.calls.saturating_add(1);
        self.failing.contains(&self.calls)
    }

    fn add(&mut self, amount: u64) -> Counted
        ensures answer { result ≡ answer_of (tally_of self.old) amount }
        ensures count { tally_of self.new ≡ tally_after (tally_of self.old) amount }
        ensures same { (self.new.stopped ≡ self.old.stopped) × (self.new.faults ≡ self.old.faults) }
    {
        let limit = self.limit;
        match self.count.checked_add(amount) {
            Some(count) if count <= limit => {
                self.count = count;
                Counted::Now(count)
            }
            _ => Counted::AtLimit,
        }
    }
}

impl Counter {
    // A step that fails is carried out or not.
    fn add_or_not(&mut self, amount: u64)
        ensures count { (tally_of self.new ≡ tally_of self.old) ⊎ (tally_of self.new ≡ tally_after (tally_of self.old) amount) }
        ensures faults { self.new.faults ≡ self.old.faults }
    {
        if !self.acts {
            return;
        }
        self.add(amount);
    }
}

impl Steps for Counter {
    type Asked = u64;

    type Answer = Counted;

    ghost use Rattle.step_turn.specs.Counters.{counting};

    ghost meaning = { counting };

    fn is_stopped(&self) -> bool {
        self.stopped
    }

    #[tactic(auto, using(crate::proofs::Counting::refused, crate::proofs::Counting::same_tally))]
    fn reopen(&mut self, _alloc: Global) -> Result<(), Counted> {
        if self.fails() {
            self.faults = self.faults.saturating_add(1);
            return Err(Counted::Failed);
        }
        self.stopped = false;
        Ok(())
    }
}

impl StepsBy<u64> for Counter {
    ghost asks = { λ amount. amount };

    ghost may_ask = { λ amount. Unit {0} };

    #[tactic(auto, using(crate::proofs::Counting::stepped, crate::proofs::Counting::failed, crate::proofs::Counting::same_tally))]
    fn step(&mut self, _alloc: Global, amount: &u64) -> Counted {
        if !self.fails() {
            return self.add(*amount);
        }
        self.add_or_not(*amount);
        self.stopped = true;
        self.faults = self.faults.saturating_add(1);
        Counted::Failed
    }
}
