// A backup's record taken in, at an opening.
ghost use Rattle.std.specs.Prelude.{◌≡◌, ◌+◌, ◌<◌, ◌≤◌, ◌^◌, ◌++◌, ℕ, List, Some, length, IfOk, OnOk};
ghost use Rattle.copy_fragments.specs.Copies.{IsPieceCount};
ghost use Rattle.pool_journal.specs.declared.segments.NewSegment.{NewSegment as Segment};
ghost use Rattle.vault_ledger.specs.Copies.{Sets};
ghost use Rattle.vault_ledger.specs.Following.{IsSamePool};
ghost use Rattle.vault_ledger.specs.Ledger.{Ledger, new_ledger, segments_fit};
ghost use Rattle.vault_ledger.specs.Pools.{HoldsLive, IsAdopted};
ghost use Rattle.vault_ledger.specs.Storage.{Follows, IsTaken, IsUnitFor};

use crate::adopting::{adopt, name_pieces};
use crate::copies::Copies;
use crate::storage::{FIRST_POOL, Storage};
use copy_fragments::CopyMap;
use policy_book::first_unit;
use pool_journal::{NewSegment, Segments, WholeImage};
use segment_pool::{Fingerprint, NoMemory, Pool, Sha256Print};
use site_types::Unit;
use std::alloc::Global;

impl Storage {
    /// The storage of a new vault: the pool of the first unit, and no copies.
    pub fn new(alloc: Global) -> Result<Storage, NoMemory>
        ensures { IfOk result (Follows new_ledger) }
    {
        let first = first_unit(alloc)?;
        let pool = Pool::new(alloc, FIRST_POOL, first.segment, first.slots, Sha256Print)?;
        Ok(Storage {
            pools: Vec::from_array(alloc, [pool])?,
            copies: Copies::new(alloc),
        })
    }

    /// Takes in the record of a backup on this unit. False exactly where its segments don't fit what was recorded before; then
    /// nothing is said of the storage.
    pub fn take_backup(
        &mut self,
        alloc: Global,
        unit: &Unit,
        image: &WholeImage,
        segments: &Segments,
    ) -> Result<bool, NoMemory>
        requires known { (l : Ledger) × Follows l self.old × IsUnitFor l image.now unit.now }
        ensures taken { (l : Ledger) → Follows l self.old → IsUnitFor l image.now unit.now → IfOk result (IsTaken l image.now segments.now self.new) }
    {
        let added = segments.added.as_slice();
        let slots = segments.pieces.as_slice();
        let pool = &mut self.pools[unit.number as usize];
        if !take_segments(alloc, pool, added, slots, image.length)? {
            return Ok(false);
        }
        self.add_copy(alloc, unit, image, slots)?;
        Ok(true)
    }

    // Adds the copy of an image, whose pieces are in these slots.
    fn add_copy(
        &mut self,
        alloc: Global,
        unit: &Unit,
        image: &WholeImage,
        slots: &[u32],
    ) -> Result<(), NoMemory>
        requires size { 1 ≤ unit.now.segment }
        requires some { 1 ≤ unit.now.fragment }
        requires pieces { IsPieceCount (length slots.now) unit.now.segment image.now.length }
        ensures pools { self.new.pools ≡ self.old.pools }
        ensures added { OnOk result (Sets image.now.id (Some (record { slots = slots.now; size = unit.now.segment; per_fragment = unit.now.fragment; length = image.now.length })) self.old.copies self.new.copies) }
    {
        let slots = slots.to_vec(alloc)?;
        let copy = CopyMap::new(slots, unit.segment, unit.fragment, image.length);
        self.copies.add(image.id.copy(alloc)?, copy)
    }
}

// Adopts the new segments of a backup, and counts the slots of its pieces. False exactly where they don't fit the segments that are
// live; then nothing is said of the pool.
fn take_segments<F: Fingerprint>(
    alloc: Global,
    pool: &mut Pool<F>,
    added: &[NewSegment],
    slots: &[u32],
    bytes: u64,
) -> Result<bool, NoMemory>
    requires few { (known : List Segment) × (named : List ℕ) × HoldsLive known named pool.old × (length named + length slots.now < 2 ^ 64) }
    ensures taken { (known : List Segment) (named : List ℕ) → HoldsLive known named pool.old → IfOk result (IsAdopted (known ++ added.now) (named ++ slots.now) (segments_fit pool.old.size known bytes (record { added = added.now; pieces = slots.now })) pool.new) }
    ensures same { IsSamePool pool.old pool.new }
{
    if !adopt(alloc, pool, added)? {
        return Ok(false);
    }
    Ok(name_pieces(pool, slots, bytes))
}
