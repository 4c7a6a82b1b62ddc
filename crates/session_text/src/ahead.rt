ghost use Rattle.std.specs.Prelude.{◌≡◌, ◌<◌, ◌≤◌, ◌+◌, [], ◌++◌, length, take, drop, OnOk, OnErr, IfOk, IsErrOf};
ghost use Rattle.vault_disk.specs.Input.{IsSameInput};
ghost use Rattle.vault_disk.specs.Steps.{Rose};

use crate::NoMemory;
use std::alloc::Global;
use std::marker::Model;
use vault_disk::{ReadFault, Source};

// Bytes that were read ahead. Contracts see those that aren't taken yet.
#[derive(Drop)]
pub(crate) struct Ahead {
    bytes: Vec<u8>,
    start: usize,
}

impl Model for Ahead {
    ghost use Rattle.std.specs.Prelude.{◌≤◌, List, ℕ, length, drop};

    ghost Value = { List ℕ };

    ghost view = { λ a. drop a.start a.bytes.items };

    ghost invariant = { λ a. a.start ≤ length a.bytes.items };
}

impl Ahead {
    pub(crate) fn new(alloc: Global) -> Ahead
        ensures { result ≡ [] }
    {
        Ahead {
            bytes: Vec::new(alloc),
            start: 0,
        }
    }

    pub(crate) fn bytes(&self) -> &[u8]
        ensures { result.now ≡ self.now }
    {
        &self.bytes[self.start..]
    }

    // Takes the first `count` bytes.
    pub(crate) fn skip(&mut self, count: usize)
        requires { count ≤ length self.old }
        ensures { self.new ≡ drop count self.old }
    {
        self.start += count;
    }

    // Keeps the first `count` bytes alone.
    pub(crate) fn truncate(&mut self, count: usize)
        requires { count ≤ length self.old }
        ensures { self.new ≡ take count self.old }
    {
        self.bytes.truncate(self.start + count);
    }

    // Reads on, as much as the block takes, and says how many bytes that were. The bytes that were taken leave only here, so that each request doesn't move those behind it.
    pub(crate) fn read_on<S: Source>(
        &mut self,
        source: &mut S,
        block: &mut [u8],
    ) -> Result<usize, ReadFault>
        requires { 0 < length block.old }
        ensures kept { (S.input source.old).tells → self.new ++ (S.input source.new).left ≡ self.old ++ (S.input source.old).left }
        ensures grown { IfOk result (λ count. length self.new ≡ length self.old + count) }
        ensures unchanged { OnErr result (self.new ≡ self.old) }
        ensures none { IfOk result (λ count. count ≡ 0 → self.new ≡ self.old) }
        ensures end { (S.input source.old).tells → IfOk result (λ count. count ≡ 0 → (S.input source.new).left ≡ []) }
        ensures same { IsSameInput (S.input source.old) (S.input source.new) }
        ensures failed { IsErrOf result ReadFault.Failed → Rose (S.input source.old).faults (S.input source.new).faults }
    {
        self.move_to_front();
        self.bytes.reserve(block.len())?;
        let count = source.read(block)?;
        // there is room, so what was read isn't lost
        self.bytes.extend_from_slice(&block[..count])?;
        Ok(count)
    }

    // Puts bytes behind those that are ahead.
    pub(crate) fn append(&mut self, bytes: &[u8]) -> Result<(), NoMemory>
        ensures appended { OnOk result (self.new ≡ self.old ++ bytes.now) }
        ensures unchanged { OnErr result (self.new ≡ self.old) }
    {
        self.bytes.extend_from_slice(bytes)
    }

    fn move_to_front(&mut self)
        ensures { self.new ≡ self.old }
    {
        let count = self.bytes.len() - self.start;
        self.bytes.copy_within(self.start.., 0);
        self.bytes.truncate(count);
        self.start = 0;
    }
}
