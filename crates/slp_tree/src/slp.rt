ghost use Rattle.std.specs.Prelude.{◌≡◌, ◌≤◌, ◌<◌, ℕ, true, length, slice_get, map, IfOk, IfErr, Option, Some, None};
ghost use Rattle.std.specs.Option.{option_copied, option_map};
ghost use Rattle.slp_tree.specs.Trees.{broken_rule, is_tree, is_child, children, needed, waits, completed};
ghost use Rattle.slp_tree.specs.Faults.{IsBroken};

use crate::NoMemory;
use crate::rules::{broken_rule, reads};
use site_types::{Copied, Name, OpState, Operation, Retention, copy_all};
use std::alloc::Global;
use std::marker::Model;

/// Why a list of operations is no tree.
#[derive(Clone, Copy, Debug)]
pub enum SlpFault {
    /// The number of the first rule that it breaks.
    Rule(u8),
    /// No memory was left.
    NoMemory,
}

/// A version of a storage lifecycle: a priority, and a tree of operations.
#[derive(Debug, Drop)]
pub struct Slp {
    priority: u32,
    operations: Vec<Operation>,
}

impl Model for Slp {
    ghost use Rattle.std.specs.Prelude.{◌≡◌, true};
    ghost use Rattle.slp_tree.specs.Trees.{Version, is_tree};

    ghost Value = { Version };

    ghost view = { λ s. record { priority = s.priority; operations = s.operations.items } };

    ghost invariant = { λ s. is_tree s.operations.items ≡ true };
}

impl Copied for Slp {
    fn copy(&self, alloc: Global) -> Result<Slp, NoMemory> {
        Ok(Slp {
            priority: self.priority,
            operations: copy_all(alloc, &self.operations)?,
        })
    }
}

impl Slp {
    /// The tree of these operations on units of these names, and otherwise the first rule that they break:
    ///
    /// 1. there is an operation;
    /// 2. operation 0 is a backup;
    /// 3. the source of a duplication is smaller than its own index;
    /// 4. an operation without children isn't kept until its copies are made;
    /// 5. there are at most 10 operations;
    /// 6. each operation's unit is there;
    /// 7. no later operation is a backup.
    ///
    /// It takes no memory, so `NoMemory` is never answered.
    #[tactic(auto, using(crate::proofs::TreeLemmas::tree_of))]
    pub fn new(
        _alloc: Global,
        priority: u32,
        operations: Vec<Operation>,
        units: &[Name],
    ) -> Result<Slp, SlpFault>
        ensures tree { IfOk result (λ slp. (slp ≡ record { priority = priority; operations = operations.items }) × (broken_rule units.now operations.items ≡ None)) }
        ensures fault { IfErr result (IsBroken (broken_rule units.now operations.items)) }
    {
        if let Some(rule) = broken_rule(units, &operations) {
            return Err(SlpFault::Rule(rule));
        }
        Ok(Slp {
            priority,
            operations,
        })
    }

    /// Versions of a higher priority have their operations done first.
    pub fn priority(&self) -> u32
        ensures { result ≡ self.now.priority }
    {
        self.priority
    }

    /// The number of its operations.
    pub fn count(&self) -> u8
        ensures count { result ≡ length self.now.operations }
        ensures at_least { 1 ≤ result }
        ensures at_most { result ≤ 10 }
        ensures tree { is_tree self.now.operations ≡ true }
    {
        self.operations.len() as u8
    }

    /// The operation with this index, and None exactly where there is none.
    pub fn operation(&self, op: u8) -> Option<&Operation>
        ensures { option_copied result ≡ slice_get self.now.operations op }
    {
        self.operations.get(usize::from(op))
    }

    /// The unit of an operation that is there.
    pub fn unit(&self, op: u8) -> &Name
        requires { op < length self.now.operations }
        ensures { slice_get (map (λ o. o.unit) self.now.operations) op ≡ Some result.now }
    {
        &self.operations[usize::from(op)].unit
    }

    /// How long the copy of an operation that is there is kept.
    pub fn retention(&self, op: u8) -> Retention
        requires { op < length self.now.operations }
        ensures { slice_get (map (λ o. o.retention) self.now.operations) op ≡ Some result }
    {
        self.operations[usize::from(op)].retention
    }

    /// The indices of the operations that read this one's copy, from the lowest on.
    pub fn children(&self, alloc: Global, op: u8) -> Result<Vec<u8>, NoMemory>
        ensures { IfOk result (λ v. v.items ≡ children self.now.operations op) }
    {
        (0..self.count())
            .filter(|index| self.reads(*index, op))
            .collect(alloc)
    }

    /// The first waiting child of an operation that is complete, and None exactly where there is none: then the operation
    /// is no longer needed.
    pub fn needed(&self, states: &[OpState], op: u8) -> Option<u8>
        ensures { result ≡ needed self.now.operations states.now op }
    {
        if !completed(states, usize::from(op)) {
            return None;
        }
        (0..self.count())
            .filter(|index| self.reads(*index, op))
            .find(|index| waits(states, usize::from(*index)))
    }

    // The operation with this index reads the copy of that one.
    fn reads(&self, index: u8, source: u8) -> bool
        ensures { result ≡ is_child self.now.operations source index }
    {
        match self.operation(index) {
            Some(operation) => reads(operation, usize::from(source)),
            None => false,
        }
    }
}

/// The operation with this index is waiting.
pub fn waits(states: &[OpState], index: usize) -> bool
    ensures { result ≡ waits states.now index }
{
    matches!(states.get(index), Some(OpState::Waiting))
}

/// The operation with this index is complete.
pub fn completed(states: &[OpState], index: usize) -> bool
    ensures { result ≡ completed states.now index }
{
    matches!(states.get(index), Some(OpState::Complete))
}
