// A pool that keeps the slots of a copy, at its seal.
ghost use Rattle.std.specs.Prelude.{◌≡◌, ◌+◌, ◌-◌, ◌<◌, ◌≤◌, ◌^◌, [], ◌∷◌, ◌++◌, ℕ, List, length, Some, Contains, vec_capacity, vec_len};
ghost use Rattle.segment_pool.specs.Slots.{PoolState, count_of, held, made_live};
ghost use Rattle.segment_pool.specs.declared.slot.Slot.{Slot as Known};
ghost use Rattle.copy_fragments.specs.PlacingSteps.{ArePinned};
ghost use Rattle.copy_fragments.specs.Placings.{PinnedEach};
ghost use Rattle.pool_journal.specs.declared.segments.NewSegment.{NewSegment as Segment};
ghost use Rattle.vault_ledger.specs.Following.{CountsFit, HoldsNow, IsPlacedSegment, IsSamePool, kept_slot, newly_live};
ghost use Rattle.vault_ledger.specs.Pools.{HoldsLive, slots_in, unrecorded};

use pool_journal::NewSegment;
use segment_pool::{Fingerprint, Pool};

/// Makes the slots of a copy live that was placed, counts them, and takes back their pins. The segments that weren't live are added
/// to `added`, each once, in the order in which they come first. It takes no memory.
pub fn keep_pieces<F: Fingerprint>(pool: &mut Pool<F>, slots: &[u32], added: &mut Vec<NewSegment>)
    requires empty { added.old.items ≡ [] }
    requires room { length slots.now ≤ vec_capacity added.old }
    requires pinned { ArePinned pool.old slots.now }
    requires few { CountsFit (length slots.now) pool.old }
    ensures kept { (before : PoolState) (known : List Segment) (named : List ℕ) → HoldsLive known named before → PinnedEach before pool.old slots.now → HoldsLive (known ++ added.new.items) (named ++ slots.now) pool.new }
    ensures order { (before : PoolState) (known : List Segment) (named : List ℕ) → HoldsLive known named before → PinnedEach before pool.old slots.now → slots_in added.new.items ≡ unrecorded (slots_in known) slots.now }
    ensures fits { (before : PoolState) (known : List Segment) (named : List ℕ) → HoldsLive known named before → PinnedEach before pool.old slots.now → (s : Segment) → Contains added.new.items s → IsPlacedSegment before pool.old s }
    ensures short { length added.new.items ≤ length slots.now }
    ensures same { IsSamePool pool.old pool.new }
{
    for slot in slots {
        keep_piece(pool, *slot, added);
    }
}

// Keeps one piece.
fn keep_piece<F: Fingerprint>(pool: &mut Pool<F>, slot: u32, added: &mut Vec<NewSegment>)
    requires pinned { (what : Known) × (held pool.old slot ≡ Some what) × (1 ≤ what.pins) }
    requires few { CountsFit 1 pool.old }
    requires room { vec_len added.old < vec_capacity added.old }
    ensures kept { (what : Known) → held pool.old slot ≡ Some what → HoldsNow pool.old pool.new slot (kept_slot what) }
    ensures added { (what : Known) → held pool.old slot ≡ Some what → added.new.items ≡ added.old.items ++ newly_live slot what }
    ensures room { vec_capacity added.old ≤ vec_capacity added.new }
    ensures short { vec_len added.new ≤ vec_len added.old + 1 }
{
    make_live(pool, slot, added);
    pool.raise_count(slot);
    pool.unpin(slot);
}

// Makes a slot live. Where it wasn't, its segment is added.
fn make_live<F: Fingerprint>(pool: &mut Pool<F>, slot: u32, added: &mut Vec<NewSegment>)
    requires pinned { (what : Known) × (held pool.old slot ≡ Some what) × (1 ≤ what.pins) }
    requires room { vec_len added.old < vec_capacity added.old }
    ensures live { (what : Known) → held pool.old slot ≡ Some what → HoldsNow pool.old pool.new slot (made_live what) }
    ensures added { (what : Known) → held pool.old slot ≡ Some what → added.new.items ≡ added.old.items ++ newly_live slot what }
    ensures room { vec_capacity added.old ≤ vec_capacity added.new }
    ensures short { vec_len added.new ≤ vec_len added.old + 1 }
{
    let Some(what) = pool.held(slot) else {
        unreachable!()
    };
    if what.live {
        return;
    }
    let digest = what.digest;
    let segment = NewSegment {
        slot,
        length: what.length,
        digest,
    };
    let Ok(()) = added.push(segment) else {
        unreachable!()
    };
    pool.make_live(slot);
}
