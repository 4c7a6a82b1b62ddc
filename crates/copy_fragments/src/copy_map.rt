ghost use Rattle.std.specs.Prelude.{◌≡◌, ◌+◌, ◌-◌, ◌*◌, ◌<◌, ◌≤◌, ◌^◌, ℕ, List, length, take, drop, min, slice_get, Some, IfOk, IfErr, OnOk, IsTrue, ◌↔◌, MatchResult};
ghost use Rattle.vault_disk.specs.Disk.{IsSame};
ghost use Rattle.vault_disk.specs.Steps.{LookedAround};
ghost use Rattle.segment_pool.specs.Faults.{TroubleHolds, TroubleOf};
ghost use Rattle.segment_pool.specs.Placing.{IsTruePool};
ghost use Rattle.segment_pool.specs.Slots.{held};
ghost use Rattle.segment_pool.specs.declared.slot.Slot.{Slot as Known};
ghost use Rattle.copy_fragments.specs.Copies.{HoldsCopy, IsPart, IsPieceCount, IsPlaced, SomePiece, StandsIn, fragment_length, part_length, piece_length};

use crate::piece_place::Place;
use segment_pool::{Fingerprint, Pool, ReadTrouble};
use std::marker::Model;
use vault_disk::Vault;

/// A copy: the slots of its pieces, in their order. All pieces have the same size, but for the last, which may be shorter.
#[derive(Drop)]
pub struct CopyMap {
    slots: Vec<u32>,
    size: u32,
    per_fragment: u32,
    bytes: u64,
}

impl Model for CopyMap {
    ghost use Rattle.std.specs.Prelude.{◌≡◌, ◌≤◌, length};
    ghost use Rattle.copy_fragments.specs.Copies.{Copy, IsPieceCount};

    ghost Value = { Copy };

    ghost view = { λ c. record { slots = c.slots.items; size = c.size; per_fragment = c.per_fragment; length = c.bytes } };

    ghost invariant = { λ c. (1 ≤ c.size) × (1 ≤ c.per_fragment) × IsPieceCount (length c.slots.items) c.size c.bytes };
}

impl CopyMap {
    /// A copy of so many bytes, whose pieces of `size` bytes are in these slots and make fragments of `per_fragment` pieces.
    pub fn new(slots: Vec<u32>, size: u32, per_fragment: u32, bytes: u64) -> CopyMap
        requires size { 1 ≤ size }
        requires some { 1 ≤ per_fragment }
        requires pieces { IsPieceCount (length slots.items) size bytes }
        ensures { result ≡ record { slots = slots.items; size = size; per_fragment = per_fragment; length = bytes } }
    {
        CopyMap {
            slots,
            size,
            per_fragment,
            bytes,
        }
    }

    /// The slot of each piece, in their order.
    pub fn slots(&self) -> &[u32]
        ensures is { result.now ≡ self.now.slots }
        ensures count { IsPieceCount (length self.now.slots) self.now.size self.now.length }
    {
        &self.slots
    }

    /// How many bytes the copy has.
    pub fn length(&self) -> u64
        ensures { result ≡ self.now.length }
    {
        self.bytes
    }

    /// The length of a fragment in bytes, and None exactly past the last. A copy of no bytes has no fragment.
    pub fn fragment_length(&self, index: u32) -> Option<u64>
        ensures { result ≡ fragment_length self.now index }
    {
        let span = self.size as u64 * self.per_fragment as u64;
        let start = span as u128 * index as u128;
        if start < self.bytes as u128 {
            Some(span.min(self.bytes - start as u64))
        } else {
            None
        }
    }

    // The length of the piece at an index.
    fn piece_length(&self, index: u64) -> u32
        requires { index * self.now.size < self.now.length }
        ensures { result ≡ piece_length self.now index }
    {
        let rest = self.bytes - index * self.size as u64;
        rest.min(self.size as u64) as u32
    }

    /// Whether the pool holds each piece of the copy, with its length.
    pub fn is_held<F: Fingerprint>(&self, pool: &Pool<F>) -> bool
        ensures { IsTrue result ↔ HoldsCopy pool.now self.now }
    {
        let mut index = 0;
        while index < self.slots.len() {
            if !self.has_piece(pool, index as u64, self.slots[index]) {
                return false;
            }
            index += 1;
        }
        true
    }

    // Whether the pool holds a slot with the length of the piece at an index.
    fn has_piece<F: Fingerprint>(&self, pool: &Pool<F>, index: u64, slot: u32) -> bool
        requires { index * self.now.size < self.now.length }
        ensures { IsTrue result ↔ ((what : Known) × (held pool.now slot ≡ Some what) × (what.length ≡ piece_length self.now index)) }
    {
        match pool.held(slot) {
            Some(what) => what.length == self.piece_length(index),
            None => false,
        }
    }

    /// Reads the copy from offset `at` on until the slice is full or the copy ends, and says how many bytes it read: 0 at or past
    /// the copy's end.
    ///
    /// Each piece is read whole, since its digest is that of all its bytes. Damaged comes only where the bytes of a piece, up to
    /// the file's end, are fewer than recorded or have another digest. After a fault the slice may hold anything as far as it was
    /// to be filled.
    pub fn read_at<V: Vault, F: Fingerprint>(
        &self,
        pool: &mut Pool<F>,
        vault: &mut V,
        at: u64,
        into: &mut [u8],
    ) -> Result<usize, ReadTrouble>
        requires { HoldsCopy pool.old self.now }
        ensures pool { pool.new ≡ pool.old }
        ensures count { IfOk result (λ n. n ≡ part_length self.now at (length into.old)) }
        ensures rest { drop (part_length self.now at (length into.old)) into.new ≡ drop (part_length self.now at (length into.old)) into.old }
        ensures part { (V.disk vault.old).tells → IfOk result (λ n. IsPart F.digest_of pool.old (V.disk vault.old).seen self.now at (take n into.new)) }
        ensures placed { (V.disk vault.old).tells → (bytes : List ℕ) → IsPlaced F.digest_of pool.old (V.disk vault.old).seen self.now bytes → MatchResult result (λ n. take n into.new ≡ take n (drop at bytes)) (λ trouble. trouble ≡ ReadTrouble.DiskFault) }
        ensures told { (V.disk vault.old).tells → IfErr result (λ trouble. SomePiece pool.old self.now at (part_length self.now at (length into.old)) (λ slot _. TroubleHolds F.digest_of pool.old (V.disk vault.old).seen slot trouble)) }
        ensures undamaged { (V.disk vault.old).tells → IsTruePool F.digest_of pool.old (V.disk vault.old).seen → IfErr result (λ trouble. trouble ≡ ReadTrouble.DiskFault) }
        ensures cause { IfErr result (λ trouble. SomePiece pool.old self.now at (part_length self.now at (length into.old)) (λ _ what. TroubleOf what.digest (V.disk vault.old).faults (V.disk vault.new).faults trouble)) }
        ensures looked { (V.disk vault.old).tells → LookedAround (V.disk vault.old) (V.disk vault.new) }
        ensures same { IsSame (V.disk vault.old) (V.disk vault.new) }
    {
        let count = self.bytes.saturating_sub(at).min(into.len() as u64) as usize;
        self.fill(pool, vault, at, &mut into[..count])
    }

    // Fills the slice with the copy's bytes from offset `at` on, a piece a turn.
    fn fill<V: Vault, F: Fingerprint>(
        &self,
        pool: &mut Pool<F>,
        vault: &mut V,
        at: u64,
        into: &mut [u8],
    ) -> Result<usize, ReadTrouble>
        requires held { HoldsCopy pool.old self.now }
        requires within { length into.old ≤ self.now.length - at }
        requires fits { at + length into.old < 2 ^ 64 }
        ensures pool { pool.new ≡ pool.old }
        ensures count { IfOk result (λ n. n ≡ length into.old) }
        ensures part { (V.disk vault.old).tells → OnOk result (IsPart F.digest_of pool.old (V.disk vault.old).seen self.now at into.new) }
        ensures told { (V.disk vault.old).tells → IfErr result (λ trouble. SomePiece pool.old self.now at (length into.old) (λ slot _. TroubleHolds F.digest_of pool.old (V.disk vault.old).seen slot trouble)) }
        ensures cause { IfErr result (λ trouble. SomePiece pool.old self.now at (length into.old) (λ _ what. TroubleOf what.digest (V.disk vault.old).faults (V.disk vault.new).faults trouble)) }
        ensures looked { (V.disk vault.old).tells → LookedAround (V.disk vault.old) (V.disk vault.new) }
        ensures same { IsSame (V.disk vault.old) (V.disk vault.new) }
    {
        let mut done = 0;
        while done < into.len() {
            done += self.read_piece(pool, vault, at + done as u64, &mut into[done..])?;
        }
        Ok(done)
    }

    // Reads the piece at offset `at` from there on, as far as there is room for it.
    fn read_piece<V: Vault, F: Fingerprint>(
        &self,
        pool: &mut Pool<F>,
        vault: &mut V,
        at: u64,
        into: &mut [u8],
    ) -> Result<usize, ReadTrouble>
        requires held { HoldsCopy pool.old self.now }
        requires within { at + length into.old ≤ self.now.length }
        requires some { 1 ≤ length into.old }
        ensures pool { pool.new ≡ pool.old }
        ensures count { IfOk result (λ n. (1 ≤ n) × (n ≤ length into.new)) }
        ensures part { (V.disk vault.old).tells → IfOk result (λ n. IsPart F.digest_of pool.old (V.disk vault.old).seen self.now at (take n into.new)) }
        ensures told { (V.disk vault.old).tells → IfErr result (λ trouble. SomePiece pool.old self.now at (length into.old) (λ slot _. TroubleHolds F.digest_of pool.old (V.disk vault.old).seen slot trouble)) }
        ensures cause { IfErr result (λ trouble. SomePiece pool.old self.now at (length into.old) (λ _ what. TroubleOf what.digest (V.disk vault.old).faults (V.disk vault.new).faults trouble)) }
        ensures looked { (V.disk vault.old).tells → LookedAround (V.disk vault.old) (V.disk vault.new) }
        ensures same { IsSame (V.disk vault.old) (V.disk vault.new) }
    {
        let place = self.place_of(at);
        let count = into.len().min((place.length - place.from) as usize);
        place.read(pool, vault, &mut into[..count])
    }

    // The piece in which an offset of the copy stands.
    fn place_of(&self, at: u64) -> Place
        requires { at < self.now.length }
        ensures { StandsIn self.now at result.slot result.from result.length }
    {
        let index = at / self.size as u64;
        Place {
            slot: self.slots[index as usize],
            from: (at % self.size as u64) as u32,
            length: self.piece_length(index),
        }
    }
}

/// How many pieces of this size so many bytes have.
pub fn piece_count(bytes: u64, size: u32) -> u64
    requires { 1 ≤ size }
    ensures { IsPieceCount result size bytes }
{
    bytes.div_ceil(size as u64)
}
