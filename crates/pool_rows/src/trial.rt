// A pool over a vault in memory, in which test pieces are placed.
ghost use Rattle.std.specs.Prelude.{◌≡◌, ◌+◌, ◌<◌, ◌≤◌, ◌^◌, Some, IfOk, IfSome};
ghost use Rattle.segment_pool.specs.Slots.{IsPinnedAtMost, held};
ghost use Rattle.segment_pool.specs.declared.slot.Slot.{Slot as Known};

use copy_fragments::{place, unpin_each};
use segment_pool::{Fingerprint, Pool, PoolFault, ReadTrouble, cut};
use std::alloc::Global;
use vault_disk::{MemoryMachine, NoMemory};

// The greatest length of a piece.
pub(crate) const SIZE: usize = 16;

// A fingerprint for which all bytes are alike.
#[derive(Clone, Copy, Debug)]
pub(crate) struct Zeros;

impl Fingerprint for Zeros {
    ghost use Rattle.std.specs.Prelude.{replicate};

    ghost digest_of = { λ _. replicate 32 0 };

    fn print(&self, _bytes: &[u8]) -> [u8; 32] {
        [0; 32]
    }
}

#[derive(Drop)]
pub(crate) struct Trial<F: Fingerprint> {
    pub(crate) machine: MemoryMachine,
    pub(crate) pool: Pool<F>,
    placed: u64,
    ghost size_is: { pool.size ≡ 16 },
    ghost pins: { IsPinnedAtMost placed pool },
}

impl<F: Fingerprint> Trial<F> {
    // A pool that holds nothing, over a file with these bytes.
    pub(crate) fn new(alloc: Global, bytes: &[u8], print: F) -> Result<Trial<F>, NoMemory> {
        Ok(Trial {
            machine: MemoryMachine::with_file(alloc, 2, bytes)?,
            pool: Pool::new(alloc, 2, SIZE as u32, 64, print)?,
            placed: 0,
        })
    }

    // The slot in which a piece was placed.
    pub(crate) fn place(&mut self, alloc: Global, print: &F, piece: &[u8]) -> Option<u32>
        ensures { IfSome result (λ slot. (what : Known) × (held self.new.pool slot ≡ Some what) × (0 < what.pins)) }
    {
        if piece.is_empty() || piece.len() > SIZE || self.placed >= 1000 {
            return None;
        }
        let digest = print.print(piece);
        self.placed += 1;
        self.pool
            .find_or_place(alloc, &mut self.machine, piece, digest)
            .ok()
    }

    // Takes a piece's pin away again.
    pub(crate) fn place_and_unpin(
        &mut self,
        alloc: Global,
        print: &F,
        piece: &[u8],
    ) -> Option<u32> {
        let slot = self.place(alloc, print, piece)?;
        self.pool.unpin(slot);
        Some(slot)
    }

    // The slots in which the pieces of some bytes were placed. The first so many pins are taken back again.
    pub(crate) fn place_bytes(
        &mut self,
        alloc: Global,
        print: &F,
        bytes: &[u8],
        back: usize,
    ) -> Option<Result<Vec<u32>, PoolFault>> {
        if bytes.len() > 1000 || self.placed > 1000 {
            return None;
        }
        let pieces = cut(alloc, print, bytes, SIZE as u32).ok()?;
        let mut slots = Vec::new(alloc);
        self.placed += bytes.len() as u64;
        if let Err(fault) = place(
            alloc,
            &mut self.pool,
            &mut self.machine,
            &pieces,
            &mut slots,
        ) {
            return Some(Err(fault));
        }
        let count = back.min(slots.len());
        unpin_each(&mut self.pool, &slots[..count]);
        Some(Ok(slots))
    }

    // A recorded slot with a piece of this digest.
    pub(crate) fn adopt(
        &mut self,
        alloc: Global,
        slot: u32,
        length: u32,
        digest: [u8; 32],
    ) -> bool {
        slot < 64
            && length > 0
            && length as usize <= SIZE
            && self.pool.held(slot).is_none()
            && self.pool.adopt(alloc, slot, length, digest).is_ok()
    }

    // What a read of a slot answers, with the bytes that it gives.
    pub(crate) fn read(&mut self, slot: u32, into: &mut [u8]) -> Option<Result<(), ReadTrouble>> {
        match self.pool.held(slot) {
            Some(what) if what.length as usize == into.len() => {
                Some(self.pool.read_into(&mut self.machine, slot, into))
            }
            _ => None,
        }
    }

    pub(crate) fn reads_as(&mut self, slot: u32, piece: &[u8]) -> bool {
        let mut buffer = [0u8; SIZE];
        if piece.len() > SIZE {
            return false;
        }
        let into = &mut buffer[..piece.len()];
        matches!(self.read(slot, into), Some(Ok(()))) && &*into == piece
    }
}
