ghost use Rattle.std.specs.Prelude.{◌≡◌, ◌≢◌, ◌⊎◌, ◌+◌, ◌-◌, ◌*◌, ◌<◌, ◌≤◌, ◌^◌, [], ℕ, List, length, take, drop, option_map, true, false, if◌then◌else◌, IfOk, IfErr, OnOk, OnErr, IfSome, IsSome, IsTrue, ◌↔◌, MatchOption, MatchBool, None, Some};
ghost use Rattle.vault_disk.specs.Disk.{Image, IsSame};
ghost use Rattle.vault_disk.specs.Steps.{Changes, LookedAround, written};
ghost use Rattle.segment_pool.specs.Faults.{FaultHolds, FaultTold, IsDamage, IsDiskFault, TroubleHolds, TroubleOf, TroubleSomewhere};
ghost use Rattle.segment_pool.specs.Index.{IsNextBelow, bits_of, leading_bits};
ghost use Rattle.segment_pool.specs.Placing.{HasOwnBytes, HasPiece, IsTruePool, IsWhole, KeepsPieces, LacksPiece, TornIn, Touches, bytes_in};
ghost use Rattle.segment_pool.specs.Slots.{AreSound, Becomes, IsAsBefore, IsEnd, IsLowestFree, IsPinnedAtMost, Matches, PinnedAgain, Placed, PoolState, count_of, held, live_piece, made_live, number_held, pinned_piece, spare, while_held};
ghost use Rattle.segment_pool.specs.declared.slot.Slot.{Slot as Known};

use crate::NoMemory;
use crate::fault::{PoolFault, ReadTrouble};
use crate::fingerprint::Fingerprint;
use crate::reading::{check, read_front, read_slot, start_of};
use crate::slot::{HeldSlot, Slot};
use crate::table::Table;
use std::alloc::Global;
use std::marker::Model;
use vault_disk::{Vault, zeros};

/// The distinct pieces of a unit, each in a slot of the unit's pool file. A slot is held while it is live or pinned; slot `k` begins
/// at `k` times the size.
#[derive(Drop)]
pub struct Pool<F: Fingerprint> {
    file: u32,
    size: u32,
    slots: u32,
    print: F,
    buffer: Vec<u8>,
    table: Table,
}

impl<F: Fingerprint> Model for Pool<F> {
    ghost use Rattle.std.specs.Prelude.{◌≡◌, ◌≤◌, length};
    ghost use Rattle.segment_pool.specs.Slots.{AreSound, PoolState};

    ghost Value = { PoolState };

    ghost view = { λ p. record { file = p.file; size = p.size; slots = p.slots; table = p.table } };

    ghost invariant = { λ p. (1 ≤ p.size) × (p.slots ≤ 16777216) × (length p.buffer.items ≡ p.size) × AreSound p.size p.table };
}

impl<F: Fingerprint> Pool<F> {
    /// A pool that holds nothing, over a file of the vault. Its pieces have from 1 to `size` bytes, and it may hold `slots` of them.
    pub fn new(
        alloc: Global,
        file: u32,
        size: u32,
        slots: u32,
        print: F,
    ) -> Result<Pool<F>, NoMemory>
        requires size { 1 ≤ size }
        requires some { 1 ≤ slots }
        requires few { slots ≤ 16777216 }
        ensures { IfOk result (λ p. p ≡ record { file = file; size = size; slots = slots; table = [] }) }
    {
        Ok(Pool {
            file,
            size,
            slots,
            print,
            buffer: zeros(alloc, size as usize)?,
            table: Table::new(alloc)?,
        })
    }

    /// The greatest length of a piece in bytes.
    pub fn size(&self) -> u32
        ensures { result ≡ self.now.size }
    {
        self.size
    }

    /// Makes room for so many new pieces.
    pub fn reserve(&mut self, alloc: Global, pieces: u32) -> Result<(), NoMemory>
        ensures room { OnOk result (pieces ≤ spare self.new) }
        ensures few { self.old.slots ≤ 16777216 }
        ensures sound { AreSound self.new.size self.new.table }
        ensures same { IsAsBefore self.old self.new }
    {
        let wanted = (self.table.held() as u64 + pieces as u64).min(self.slots as u64) as usize;
        self.lengthen(wanted)
    }

    // Makes the table so long at least.
    fn lengthen(&mut self, slots: usize) -> Result<(), NoMemory>
        requires { slots ≤ 16777216 }
        ensures long { OnOk result (slots ≤ length self.new.table) }
        ensures sound { AreSound self.new.size self.new.table }
        ensures same { IsAsBefore self.old self.new }
    {
        self.table.grow(slots)?;
        Ok(())
    }

    // Makes room for a new piece where there is none.
    fn make_room(&mut self, alloc: Global) -> Result<(), NoMemory>
        requires { number_held self.old < self.old.slots }
        ensures room { OnOk result (number_held self.new < length self.new.table) }
        ensures full { OnErr result (spare self.old ≡ 0) }
        ensures same { IsAsBefore self.old self.new }
    {
        if self.table.held() as usize == self.table.len() {
            self.reserve(alloc, 1)?;
        }
        Ok(())
    }

    // The lowest free slot.
    fn lowest_free(&mut self) -> u32
        requires { number_held self.old < length self.old.table }
        ensures same { self.new ≡ self.old }
        ensures lowest { IsLowestFree self.old result }
        ensures within { result < length self.old.table }
    {
        let Some(slot) = self.table.lowest_free() else {
            unreachable!()
        };
        slot
    }

    // What is known of a held slot.
    fn known(&self, slot: u32) -> Slot
        requires { IsSome (held self.now slot) }
        ensures is { held self.now slot ≡ Some result }
        ensures some { 1 ≤ result.length }
        ensures short { result.length ≤ self.now.size }
        ensures kept { while_held result ≡ Some result }
    {
        match self.table.at(slot) {
            Some(what) => what,
            None => unreachable!(),
        }
    }

    // Changes what is known of a held slot that stays held, but for its piece.
    fn set(&mut self, slot: u32, what: Slot)
        requires was { (was : Known) × (held self.old slot ≡ Some was) × (was.length ≡ what.length) × (was.digest ≡ what.digest) }
        requires kept { while_held what ≡ Some what }
        ensures { Becomes self.old self.new slot (Some what) }
    {
        self.table.change(slot, what);
    }

    // Frees a held slot.
    fn free(&mut self, slot: u32, digest: &[u8; 32])
        requires { (was : Known) × (held self.old slot ≡ Some was) × (was.digest ≡ digest.now) }
        ensures { Becomes self.old self.new slot None }
    {
        self.table.free(slot, digest);
    }

    // Holds a free slot for a piece.
    fn hold(&mut self, slot: u32, what: Slot)
        requires within { slot < length self.old.table }
        requires free { held self.old slot ≡ None }
        requires some { 1 ≤ what.length }
        requires short { what.length ≤ self.old.size }
        requires kept { while_held what ≡ Some what }
        ensures { Becomes self.old self.new slot (Some what) }
    {
        self.table.hold(slot, what);
    }

    /// Makes a recorded slot live, with a count of 0. A true pool stays true where the slot's bytes are those recorded, and of no
    /// held slot.
    pub fn adopt(
        &mut self,
        alloc: Global,
        slot: u32,
        length: u32,
        digest: [u8; 32],
    ) -> Result<(), NoMemory>
        requires within { slot < 16777216 }
        requires free { held self.old slot ≡ None }
        requires some { 1 ≤ length }
        requires short { length ≤ self.old.size }
        ensures ok { OnOk result (Becomes self.old self.new slot (Some (live_piece length digest))) }
        ensures stays_true { (image : Image) → IsTruePool F.digest_of self.old image → HasOwnBytes F.digest_of self.old image slot (live_piece length digest) → OnOk result (IsTruePool F.digest_of self.new image) }
        ensures err { OnErr result (IsAsBefore self.old self.new) }
    {
        self.lengthen(slot as usize + 1)?;
        self.hold(
            slot,
            Slot {
                live: true,
                pins: 0,
                count: 0,
                length,
                digest,
            },
        );
        Ok(())
    }

    /// The slot that holds this piece, pinned once more; where none does, the lowest free slot, into which the piece is written.
    ///
    /// Slots with the piece's digest are compared byte by byte. Full comes exactly where the piece isn't held and at least as many
    /// are held as the pool has slots, and NoMemory only where it isn't held and there is no room. After a fault the pool is as
    /// before, and the disk too, but after a DiskFault.
    pub fn find_or_place<V: Vault>(
        &mut self,
        alloc: Global,
        vault: &mut V,
        piece: &[u8],
        digest: [u8; 32],
    ) -> Result<u32, PoolFault>
        requires some { 1 ≤ length piece.now }
        requires short { length piece.now ≤ self.old.size }
        requires digest { F.digest_of piece.now ≡ digest }
        requires pins { (slot : ℕ) (what : Known) → held self.old slot ≡ Some what → what.pins < 2 ^ 64 - 1 }
        ensures pinned { IfOk result (λ slot. PinnedAgain self.old self.new slot (length piece.now) digest ⊎ Placed self.old self.new slot (length piece.now) digest) }
        ensures pins { (most : ℕ) → IsPinnedAtMost most self.old → IsPinnedAtMost (most + 1) self.new }
        ensures ways { (V.disk vault.old).tells → IfOk result (λ slot. HasPiece F.digest_of self.old (V.disk vault.old).seen slot piece.now ⊎ Placed self.old self.new slot (length piece.now) digest) }
        ensures refused { OnErr result (IsAsBefore self.old self.new) }
        ensures cause { IfErr result (FaultHolds self.old digest (V.disk vault.old).faults (V.disk vault.new).faults) }
        ensures told { (V.disk vault.old).tells → IfErr result (FaultTold F.digest_of self.old (V.disk vault.old).seen piece.now) }
        ensures piece { (V.disk vault.old).tells → IfOk result (λ slot. HasPiece F.digest_of self.new (V.disk vault.new).seen slot piece.now) }
        ensures found { (V.disk vault.old).tells → (slot : ℕ) → HasPiece F.digest_of self.old (V.disk vault.old).seen slot piece.now → IfOk result (λ s. HasPiece F.digest_of self.old (V.disk vault.old).seen s piece.now) × LookedAround (V.disk vault.old) (V.disk vault.new) }
        ensures stays_true { (V.disk vault.old).tells → IsTruePool F.digest_of self.old (V.disk vault.old).seen → OnOk result (IsTruePool F.digest_of self.new (V.disk vault.new).seen) }
        ensures same_slot { (V.disk vault.old).tells → IsTruePool F.digest_of self.old (V.disk vault.old).seen → (slot : ℕ) → HasPiece F.digest_of self.old (V.disk vault.old).seen slot piece.now → IfOk result (λ s. s ≡ slot) }
        ensures undamaged { (V.disk vault.old).tells → IsTruePool F.digest_of self.old (V.disk vault.old).seen → IfErr result (λ fault. ¬ IsDamage fault) }
        ensures touches { (V.disk vault.old).tells → (slot : ℕ) → IsLowestFree self.old slot → Touches self.old (slot * self.old.size + length piece.now) (V.disk vault.old) (V.disk vault.new) }
        ensures seen { (V.disk vault.old).tells → (slot : ℕ) → IsLowestFree self.old slot → OnOk result (KeepsPieces self.old (slot * self.old.size + length piece.now) (V.disk vault.old).seen (V.disk vault.new).seen) }
        ensures looked { (V.disk vault.old).tells → IfErr result (λ fault. ¬ IsDiskFault fault → LookedAround (V.disk vault.old) (V.disk vault.new)) }
        ensures same { IsSame (V.disk vault.old) (V.disk vault.new) }
    {
        if let Some(slot) = self.find(vault, piece, &digest)? {
            self.pin(slot);
            return Ok(slot);
        }
        self.place(alloc, vault, piece, digest)
    }

    // The slot that holds this piece.
    fn find<V: Vault>(
        &mut self,
        vault: &mut V,
        piece: &[u8],
        digest: &[u8; 32],
    ) -> Result<Option<u32>, ReadTrouble>
        requires short { length piece.now ≤ self.old.size }
        requires digest { F.digest_of piece.now ≡ digest.now }
        ensures pool { self.new ≡ self.old }
        ensures sound { AreSound self.old.size self.old.table }
        ensures matches { IfOk result (λ found. IfSome found (λ slot. Matches self.old slot (length piece.now) digest.now)) }
        ensures found { (V.disk vault.old).tells → IfOk result (λ found. MatchOption found (LacksPiece F.digest_of self.old (V.disk vault.old).seen piece.now) (λ slot. HasPiece F.digest_of self.old (V.disk vault.old).seen slot piece.now)) }
        ensures told { (V.disk vault.old).tells → IfErr result (TroubleSomewhere F.digest_of self.old (V.disk vault.old).seen) }
        ensures cause { IfErr result (TroubleOf digest.now (V.disk vault.old).faults (V.disk vault.new).faults) }
        ensures looked { (V.disk vault.old).tells → LookedAround (V.disk vault.old) (V.disk vault.new) }
        ensures same { IsSame (V.disk vault.old) (V.disk vault.new) }
    {
        let mut candidate = self.first_like(digest);
        while let Some(slot) = candidate {
            if self.has_piece(vault, slot, piece, digest)? {
                return Ok(Some(slot));
            }
            candidate = self.next_like(slot);
        }
        Ok(None)
    }

    // The greatest slot whose digest has the same leading bits.
    fn first_like(&self, digest: &[u8; 32]) -> Option<u32>
        ensures next { IsNextBelow self.now.table (leading_bits digest.now) 16777216 result }
        ensures short { length self.now.table ≤ 16777216 }
        ensures sound { AreSound self.now.size self.now.table }
    {
        self.table.first(digest)
    }

    // The greatest one below a held slot.
    fn next_like(&self, slot: u32) -> Option<u32>
        requires { IsSome (held self.now slot) }
        ensures { (bits : ℕ) → bits_of self.now.table slot ≡ Some bits → IsNextBelow self.now.table bits slot result }
    {
        self.table.next(slot)
    }

    // Whether a held slot has this piece.
    fn has_piece<V: Vault>(
        &mut self,
        vault: &mut V,
        slot: u32,
        piece: &[u8],
        digest: &[u8; 32],
    ) -> Result<bool, ReadTrouble>
        requires held { IsSome (held self.old slot) }
        requires short { length piece.now ≤ self.old.size }
        requires digest { F.digest_of piece.now ≡ digest.now }
        ensures pool { self.new ≡ self.old }
        ensures matches { IfOk result (λ has. has ≡ true → Matches self.old slot (length piece.now) digest.now) }
        ensures found { (V.disk vault.old).tells → IfOk result (λ has. MatchBool has (HasPiece F.digest_of self.old (V.disk vault.old).seen slot piece.now) (¬ HasPiece F.digest_of self.old (V.disk vault.old).seen slot piece.now)) }
        ensures told { (V.disk vault.old).tells → IfErr result (TroubleHolds F.digest_of self.old (V.disk vault.old).seen slot) }
        ensures cause { IfErr result (TroubleOf digest.now (V.disk vault.old).faults (V.disk vault.new).faults) }
        ensures looked { (V.disk vault.old).tells → LookedAround (V.disk vault.old) (V.disk vault.new) }
        ensures same { IsSame (V.disk vault.old) (V.disk vault.new) }
    {
        let what = self.known(slot);
        if !is_recorded_so(&what, piece.len(), digest) {
            return Ok(false);
        }
        let at = start_of(slot, self.size);
        let read = read_front(vault, self.file, at, &mut self.buffer, piece.len());
        let buffer = self.buffer.as_slice();
        let bytes = &buffer[..read?];
        if bytes == piece {
            return Ok(true);
        }
        check(&self.print, bytes, piece.len(), digest)?;
        Ok(false)
    }

    // Writes a piece that isn't held into the lowest free slot.
    fn place<V: Vault>(
        &mut self,
        alloc: Global,
        vault: &mut V,
        piece: &[u8],
        digest: [u8; 32],
    ) -> Result<u32, PoolFault>
        requires some { 1 ≤ length piece.now }
        requires short { length piece.now ≤ self.old.size }
        ensures placed { IfOk result (λ slot. Placed self.old self.new slot (length piece.now) digest) }
        ensures refused { OnErr result (IsAsBefore self.old self.new) }
        ensures cause { IfErr result (FaultHolds self.old digest (V.disk vault.old).faults (V.disk vault.new).faults) }
        ensures no_damage { IfErr result (λ fault. ¬ IsDamage fault) }
        ensures written { (V.disk vault.old).tells → IfOk result (λ slot. Changes self.old.file (λ o n. n ≡ written o (slot * self.old.size) piece.now) (V.disk vault.old).seen (V.disk vault.new).seen) }
        ensures left { (V.disk vault.old).tells → (slot : ℕ) → IsLowestFree self.old slot → TornIn self.old.file (slot * self.old.size) (length piece.now) (V.disk vault.old) (V.disk vault.new) }
        ensures looked { (V.disk vault.old).tells → IfErr result (λ fault. ¬ IsDiskFault fault → LookedAround (V.disk vault.old) (V.disk vault.new)) }
        ensures same { IsSame (V.disk vault.old) (V.disk vault.new) }
    {
        let file = self.file;
        let size = self.size;
        let count = self.table.held();
        if count >= self.slots {
            return Err(PoolFault::Full { count: count + 1 });
        }
        self.make_room(alloc)?;
        let slot = self.lowest_free();
        vault.write_at(file, start_of(slot, size), piece)?;
        self.hold(
            slot,
            Slot {
                live: false,
                pins: 1,
                count: 0,
                length: piece.len() as u32,
                digest,
            },
        );
        Ok(slot)
    }

    /// Pins a held slot once more.
    pub fn pin(&mut self, slot: u32)
        requires held { IsSome (held self.old slot) }
        requires few { (what : Known) → held self.old slot ≡ Some what → what.pins < 2 ^ 64 - 1 }
        ensures { (what : Known) → held self.old slot ≡ Some what → Becomes self.old self.new slot (Some (record what { pins = what.pins + 1 })) }
    {
        let mut what = self.known(slot);
        what.pins += 1;
        self.set(slot, what);
    }

    /// Takes one pin from a slot. Where it was the last, and the slot isn't live, the slot is free.
    pub fn unpin(&mut self, slot: u32)
        requires { (what : Known) × (held self.old slot ≡ Some what) × (0 < what.pins) }
        ensures { (what : Known) → held self.old slot ≡ Some what → Becomes self.old self.new slot (while_held (record what { pins = what.pins - 1 })) }
    {
        let mut what = self.known(slot);
        what.pins -= 1;
        self.keep(slot, what);
    }

    /// Makes a pinned slot live.
    pub fn make_live(&mut self, slot: u32)
        requires { (what : Known) × (held self.old slot ≡ Some what) × (0 < what.pins) }
        ensures { (what : Known) → held self.old slot ≡ Some what → Becomes self.old self.new slot (Some (made_live what)) }
    {
        let mut what = self.known(slot);
        if !what.live {
            what.live = true;
            what.count = 0;
        }
        self.set(slot, what);
    }

    /// Makes a live slot not live. Where nothing pins it, it is free.
    pub fn drop_live(&mut self, slot: u32)
        requires { (what : Known) × (held self.old slot ≡ Some what) × (what.live ≡ true) }
        ensures { (what : Known) → held self.old slot ≡ Some what → Becomes self.old self.new slot (while_held (record what { live = false; count = 0 })) }
    {
        let mut what = self.known(slot);
        what.live = false;
        what.count = 0;
        self.keep(slot, what);
    }

    // Keeps what is known of a held slot now, and frees it where it is neither live nor pinned.
    fn keep(&mut self, slot: u32, what: Slot)
        requires { (was : Known) × (held self.old slot ≡ Some was) × (was.length ≡ what.length) × (was.digest ≡ what.digest) }
        ensures { Becomes self.old self.new slot (while_held what) }
    {
        if what.is_held() {
            self.set(slot, what);
        } else {
            self.free(slot, &what.digest);
        }
    }

    /// How often kept copies name a slot: 0 for one that isn't live.
    pub fn count(&self, slot: u32) -> u64
        ensures { result ≡ count_of (held self.now slot) }
    {
        match self.table.at(slot) {
            Some(what) if what.live => what.count,
            _ => 0,
        }
    }

    /// Adds one to the count of a live slot.
    pub fn raise_count(&mut self, slot: u32)
        requires { (what : Known) × (held self.old slot ≡ Some what) × (what.live ≡ true) × (what.count < 2 ^ 64 - 1) }
        ensures { (what : Known) → held self.old slot ≡ Some what → Becomes self.old self.new slot (Some (record what { count = what.count + 1 })) }
    {
        let mut what = self.known(slot);
        what.count += 1;
        self.set(slot, what);
    }

    /// Takes one from the count of a live slot.
    pub fn lower_count(&mut self, slot: u32)
        requires { (what : Known) × (held self.old slot ≡ Some what) × (what.live ≡ true) × (0 < what.count) }
        ensures { (what : Known) → held self.old slot ≡ Some what → Becomes self.old self.new slot (Some (record what { count = what.count - 1 })) }
    {
        let mut what = self.known(slot);
        what.count -= 1;
        self.set(slot, what);
    }

    /// Sets how many pieces the pool may hold. What is held stays.
    pub fn set_slots(&mut self, slots: u32)
        requires some { 1 ≤ slots }
        requires few { slots ≤ 16777216 }
        ensures { self.new ≡ record self.old { slots = slots } }
    {
        self.slots = slots;
    }

    /// What is recorded of a slot, and None exactly where it isn't held.
    pub fn held(&self, slot: u32) -> Option<HeldSlot>
        ensures { result ≡ option_map (λ (what : Known). record { live = what.live; length = what.length; digest = what.digest }) (held self.now slot) }
    {
        match self.table.at(slot) {
            Some(what) => {
                let digest = what.digest;
                Some(HeldSlot {
                    live: what.live,
                    length: what.length,
                    digest,
                })
            }
            None => None,
        }
    }

    /// One more than the greatest held slot, or 0 where none is held.
    pub fn end(&self) -> u32
        ensures { IsEnd self.now result }
    {
        let mut end = self.table.len() as u32;
        while end > 0 && self.table.at(end - 1).is_none() {
            end -= 1;
        }
        end
    }

    /// Reads the piece of a held slot, whose length is that of the slice.
    ///
    /// Damaged comes only where the bytes of the slot, up to the file's end, are fewer than recorded or have another digest. After
    /// a fault the slice may hold anything.
    pub fn read_into<V: Vault>(
        &mut self,
        vault: &mut V,
        slot: u32,
        into: &mut [u8],
    ) -> Result<(), ReadTrouble>
        requires { (what : Known) × (held self.old slot ≡ Some what) × (what.length ≡ length into.old) }
        ensures pool { self.new ≡ self.old }
        ensures digest { (what : Known) → held self.old slot ≡ Some what → OnOk result (F.digest_of into.new ≡ what.digest) }
        ensures bytes { (V.disk vault.old).tells → OnOk result (into.new ≡ bytes_in self.old (V.disk vault.old).seen slot (length into.old)) }
        ensures whole { (V.disk vault.old).tells → (what : Known) → held self.old slot ≡ Some what → OnOk result (IsWhole F.digest_of what into.new) }
        ensures told { (V.disk vault.old).tells → IfErr result (TroubleHolds F.digest_of self.old (V.disk vault.old).seen slot) }
        ensures undamaged { (V.disk vault.old).tells → IsTruePool F.digest_of self.old (V.disk vault.old).seen → IfErr result (λ trouble. trouble ≡ ReadTrouble.DiskFault) }
        ensures cause { (what : Known) → held self.old slot ≡ Some what → IfErr result (TroubleOf what.digest (V.disk vault.old).faults (V.disk vault.new).faults) }
        ensures looked { (V.disk vault.old).tells → LookedAround (V.disk vault.old) (V.disk vault.new) }
        ensures same { IsSame (V.disk vault.old) (V.disk vault.new) }
    {
        let what = self.known(slot);
        let length = into.len();
        let count = read_slot(vault, self.file, start_of(slot, self.size), into)?;
        check(&self.print, &into[..count], length, &what.digest)
    }

    /// Reads a part of the piece of a held slot, from offset `from` on. All of the piece is read, since its digest is that of all.
    ///
    /// After a fault the slice is as before.
    pub fn read_part<V: Vault>(
        &mut self,
        vault: &mut V,
        slot: u32,
        from: u32,
        into: &mut [u8],
    ) -> Result<(), ReadTrouble>
        requires { (what : Known) × (held self.old slot ≡ Some what) × (from + length into.old ≤ what.length) }
        ensures pool { self.new ≡ self.old }
        ensures bytes { (V.disk vault.old).tells → (what : Known) → held self.old slot ≡ Some what → OnOk result (into.new ≡ take (length into.old) (drop from (bytes_in self.old (V.disk vault.old).seen slot what.length))) }
        ensures whole { (V.disk vault.old).tells → (what : Known) → held self.old slot ≡ Some what → OnOk result (IsWhole F.digest_of what (bytes_in self.old (V.disk vault.old).seen slot what.length)) }
        ensures err { OnErr result (into.new ≡ into.old) }
        ensures told { (V.disk vault.old).tells → IfErr result (TroubleHolds F.digest_of self.old (V.disk vault.old).seen slot) }
        ensures cause { (what : Known) → held self.old slot ≡ Some what → IfErr result (TroubleOf what.digest (V.disk vault.old).faults (V.disk vault.new).faults) }
        ensures looked { (V.disk vault.old).tells → LookedAround (V.disk vault.old) (V.disk vault.new) }
        ensures same { IsSame (V.disk vault.old) (V.disk vault.new) }
    {
        let what = self.known(slot);
        let at = start_of(slot, self.size);
        let length = what.length as usize;
        let read = read_front(vault, self.file, at, &mut self.buffer, length);
        let buffer = self.buffer.as_slice();
        check(&self.print, &buffer[..read?], length, &what.digest)?;
        let start = from as usize;
        into.copy_from_slice(&buffer[start..start + into.len()]);
        Ok(())
    }
}

// Whether a slot's piece has this length and digest.
fn is_recorded_so(what: &Slot, length: usize, digest: &[u8; 32]) -> bool
    ensures { IsTrue result ↔ ((what.now.length ≡ length) × (what.now.digest ≡ digest.now)) }
{
    what.length as usize == length && what.digest == *digest
}
