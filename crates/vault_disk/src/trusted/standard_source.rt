// Trusted: that a read gives the next bytes of the reader, each once, and none only where the reader has ended.
ghost use Rattle.std.specs.Prelude.{◌≡◌, ◌-◌, ◌^◌};

use crate::faults::{counted, raise};
use crate::retried::read_some;
use crate::{Failed, Source};
use std::io::Read;

/// A source over a reader, such as standard input. It tells nothing of content, and counts its faults. After
/// 18,446,744,073,709,551,615 bytes every read fails.
#[derive(Drop)]
pub struct StandardSource<T: Read + Drop> {
    reader: T,
    budget: u64,
    faults: u64,
}

impl<T: Read + Drop> StandardSource<T> {
    /// A source of what this reader gives.
    pub fn new(reader: T) -> Self
        ensures budget { (⟦<StandardSource<T> as Source>⟧.input result).budget ≡ 2 ^ 64 - 1 }
        ensures faults { (⟦<StandardSource<T> as Source>⟧.input result).faults ≡ 0 }
    {
        StandardSource {
            reader,
            budget: u64::MAX,
            faults: 0,
        }
    }
}

impl<T: Read + Drop> Source for StandardSource<T> {
    ghost use Rattle.vault_disk.specs.Input.{silent_input};

    ghost input = { λ s. silent_input s.budget s.faults };

    fn read(&mut self, into: &mut [u8]) -> Result<usize, Failed> {
        let room = into.len().min(self.budget as usize);
        if room < into.len() && room == 0 {
            return Err(raise(&mut self.faults));
        }
        let read = read_some(&mut self.reader, &mut into[..room]);
        let count = counted(read, &mut self.faults)?;
        self.budget -= count as u64;
        Ok(count)
    }
}
