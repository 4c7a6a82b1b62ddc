// A pool that takes over what a ledger says of its unit, at an opening.
ghost use Rattle.std.specs.Prelude.{◌≡◌, ◌+◌, ◌-◌, ◌<◌, ◌≤◌, ◌^◌, [], ◌∷◌, ◌++◌, ◌&&◌, nat_le, nat_lt, ℕ, List, length, true, Some, IfOk, OnOk, IsTrue, ◌↔◌, is_none};
ghost use Rattle.segment_pool.specs.Slots.{count_of, held};
ghost use Rattle.segment_pool.specs.declared.slot.Slot.{Slot as Known};
ghost use Rattle.pool_journal.specs.declared.segments.NewSegment.{NewSegment as Segment};
ghost use Rattle.vault_ledger.specs.Following.{CountsFit, IsSamePool, is_new};
ghost use Rattle.vault_ledger.specs.Ledger.{added_fit, has_piece, pieces_fit, slot_limit};
ghost use Rattle.vault_ledger.specs.Pools.{HoldsLive, IsAdopted};

use pool_journal::NewSegment;
use segment_pool::{Fingerprint, NoMemory, Pool};
use std::alloc::Global;

// How many slots a pool may have.
const SLOT_LIMIT: u32 = 16_777_216;

/// Adopts the new segments of a record as live slots. False exactly where they don't fit the segments that are live; then
/// nothing is said of the pool.
pub fn adopt<F: Fingerprint>(
    alloc: Global,
    pool: &mut Pool<F>,
    added: &[NewSegment],
) -> Result<bool, NoMemory>
    ensures adopted { (known : List Segment) (named : List ℕ) → HoldsLive known named pool.old → IfOk result (IsAdopted (known ++ added.now) named (added_fit pool.old.size known added.now) pool.new) }
    ensures same { IsSamePool pool.old pool.new }
{
    for segment in added {
        if !adopt_segment(alloc, pool, segment)? {
            return Ok(false);
        }
    }
    Ok(true)
}

// Adopts one of them.
fn adopt_segment<F: Fingerprint>(
    alloc: Global,
    pool: &mut Pool<F>,
    segment: &NewSegment,
) -> Result<bool, NoMemory>
    ensures adopted { (known : List Segment) (named : List ℕ) → HoldsLive known named pool.old → IfOk result (IsAdopted (known ++ segment.now ∷ []) named (is_new pool.old.size known segment.now) pool.new) }
    ensures same { IsSamePool pool.old pool.new }
{
    if !fits(pool, segment) {
        return Ok(false);
    }
    pool.adopt(alloc, segment.slot, segment.length, segment.digest)?;
    Ok(true)
}

// Whether a segment's slot is free and below the limit, and its length from 1 to the segment size.
fn fits<F: Fingerprint>(pool: &Pool<F>, segment: &NewSegment) -> bool
    ensures { result ≡ (nat_lt segment.now.slot slot_limit && nat_le 1 segment.now.length && nat_le segment.now.length pool.now.size && is_none (held pool.now segment.now.slot)) }
{
    segment.slot < SLOT_LIMIT
        && 1 <= segment.length
        && segment.length <= pool.size()
        && pool.held(segment.slot).is_none()
}

/// Counts the slots of a copy's pieces. False exactly where they aren't live or haven't the lengths of the pieces of so many bytes;
/// then nothing is said of the pool.
pub fn name_pieces<F: Fingerprint>(pool: &mut Pool<F>, slots: &[u32], bytes: u64) -> bool
    requires few { CountsFit (length slots.now) pool.old }
    ensures named { (known : List Segment) (named : List ℕ) → HoldsLive known named pool.old → IsAdopted known (named ++ slots.now) (pieces_fit pool.old.size known bytes slots.now) pool.new result }
    ensures same { IsSamePool pool.old pool.new }
{
    let size = u64::from(pool.size());
    let mut rest = bytes;
    for slot in slots {
        if rest == 0 || !name_piece(pool, *slot, size.min(rest)) {
            return false;
        }
        rest = rest.saturating_sub(size);
    }
    rest == 0
}

// Counts the slot of one piece of so many bytes.
fn name_piece<F: Fingerprint>(pool: &mut Pool<F>, slot: u32, length: u64) -> bool
    requires few { CountsFit 1 pool.old }
    ensures named { (known : List Segment) (named : List ℕ) → HoldsLive known named pool.old → IsAdopted known (named ++ slot ∷ []) (has_piece slot length known) pool.new result }
    ensures few { (more : ℕ) → CountsFit (more + 1) pool.old → CountsFit more pool.new }
    ensures same { IsSamePool pool.old pool.new }
{
    if !has_live(pool, slot, length) {
        return false;
    }
    pool.raise_count(slot);
    true
}

// Whether a slot is live and has a piece of so many bytes.
fn has_live<F: Fingerprint>(pool: &Pool<F>, slot: u32, length: u64) -> bool
    ensures { IsTrue result ↔ ((what : Known) × (held pool.now slot ≡ Some what) × (what.live ≡ true) × (what.length ≡ length)) }
{
    match pool.held(slot) {
        Some(what) => what.live && u64::from(what.length) == length,
        None => false,
    }
}
