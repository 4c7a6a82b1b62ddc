// Placing the pieces of byte strings in a pool.
ghost use Rattle.std.specs.Prelude.{◌≡◌, ◌≢◌, ◌+◌, ◌-◌, ◌*◌, ◌<◌, ◌≤◌, ◌^◌, ◌++◌, [], ℕ, List, length, vec_capacity, vec_len, IfOk, IfErr, OnOk, OnErr};
ghost use Rattle.vault_disk.specs.Disk.{IsSame};
ghost use Rattle.segment_pool.specs.Pieces.{pieces};
ghost use Rattle.segment_pool.specs.Placing.{IsTruePool, KeepsPieces, Touches};
ghost use Rattle.segment_pool.specs.Faults.{IsDamage, IsDiskFault};
ghost use Rattle.segment_pool.specs.Slots.{AreSound, IsAsBefore, IsPinnedAtMost, PoolState, number_held, spare};
ghost use Rattle.copy_fragments.specs.Copies.{IsPlaced};
ghost use Rattle.copy_fragments.specs.Placings.{FitPieces, HoldsMore, PinnedEach, PlacingFails, PlacingTold, copy_in, new_pieces};
ghost use Rattle.copy_fragments.specs.PlacingSteps.{ArePinned, HasPieces, IsDamageOf, PlacedSoFar, StaysTrue, UnpinnedEach};

use crate::copy_map::piece_count;
use segment_pool::{Cut, Fingerprint, NoMemory, Pool, PoolFault};
use std::alloc::{AllocError, Global};
use vault_disk::Vault;

/// Finds or places each piece of the bytes, and pins its slot. The slots are added to those in `slots`, one for each piece.
///
/// All memory is taken before the first call of the vault. After a fault each pin is gone that this call took, and `slots` is as
/// it was. Full comes exactly where the pieces that aren't held are more than the pool has slots for; its count is one more than
/// the greater of the pool's slots and the pieces held before.
pub fn place<V: Vault, F: Fingerprint>(
    alloc: Global,
    pool: &mut Pool<F>,
    vault: &mut V,
    cut: &Cut<'_, F>,
    slots: &mut Vec<u32>,
) -> Result<(), PoolFault>
    requires size { cut.now.size ≡ pool.old.size }
    requires pins { (most : ℕ) × IsPinnedAtMost most pool.old × (most + length cut.now.bytes < 2 ^ 64 - 1) }
    ensures pinned { OnOk result ((placed : List ℕ) × (slots.new.items ≡ slots.old.items ++ placed) × PinnedEach pool.old pool.new placed × (length placed ≡ length (pieces cut.now.size cut.now.bytes))) }
    ensures few { OnOk result (pool.old.slots ≤ 16777216) }
    ensures fit { OnOk result ((placed : List ℕ) → slots.new.items ≡ slots.old.items ++ placed → FitPieces pool.old pool.new (pieces cut.now.size cut.now.bytes) placed) }
    ensures placed { (V.disk vault.old).tells → OnOk result ((placed : List ℕ) → slots.new.items ≡ slots.old.items ++ placed → IsPlaced F.digest_of pool.new (V.disk vault.new).seen (copy_in placed cut.now) cut.now.bytes) }
    ensures more { (V.disk vault.old).tells → IsTruePool F.digest_of pool.old (V.disk vault.old).seen → OnOk result (HoldsMore pool.old pool.new (new_pieces pool.old (V.disk vault.old).seen cut.now.bytes)) }
    ensures stays_true { (V.disk vault.old).tells → IsTruePool F.digest_of pool.old (V.disk vault.old).seen → OnOk result (IsTruePool F.digest_of pool.new (V.disk vault.new).seen) }
    ensures refused { OnErr result (IsAsBefore pool.old pool.new × (slots.new.items ≡ slots.old.items)) }
    ensures cause { IfErr result (λ fault. ¬ IsDamage fault → PlacingFails pool.old (V.disk vault.old).faults (V.disk vault.new).faults fault) }
    ensures cause_told { (V.disk vault.old).tells → IfErr result (PlacingFails pool.old (V.disk vault.old).faults (V.disk vault.new).faults) }
    ensures damaged { IfErr result (IsDamageOf F.digest_of (pieces cut.now.size cut.now.bytes)) }
    ensures memory { IfErr result (λ fault. fault ≡ PoolFault.NoMemory → vault.new ≡ vault.old) }
    ensures told { (V.disk vault.old).tells → IsTruePool F.digest_of pool.old (V.disk vault.old).seen → IfErr result (PlacingTold F.digest_of pool.old (V.disk vault.old).seen cut.now.bytes) }
    ensures undamaged { (V.disk vault.old).tells → IsTruePool F.digest_of pool.old (V.disk vault.old).seen → IfErr result (λ fault. ¬ IsDamage fault) }
    ensures touches { (V.disk vault.old).tells → Touches pool.old ((number_held pool.old + length (pieces cut.now.size cut.now.bytes)) * pool.old.size) (V.disk vault.old) (V.disk vault.new) }
    ensures seen { (V.disk vault.old).tells → OnOk result (KeepsPieces pool.old (number_held pool.new * pool.old.size) (V.disk vault.old).seen (V.disk vault.new).seen) }
    ensures seen_refused { (V.disk vault.old).tells → IfErr result (λ fault. ¬ IsDiskFault fault → KeepsPieces pool.old ((number_held pool.old + length (pieces cut.now.size cut.now.bytes)) * pool.old.size) (V.disk vault.old).seen (V.disk vault.new).seen) }
    ensures same { IsSame (V.disk vault.old) (V.disk vault.new) }
{
    let mut placed = take_memory(alloc, pool, cut, slots)?;
    if let Err(fault) = place_each(alloc, pool, vault, cut, &mut placed) {
        unpin_each(pool, &placed);
        return Err(fault);
    }
    let Ok(()) = slots.extend_from_slice(&placed) else {
        unreachable!()
    };
    Ok(())
}

// Takes memory for the pieces of the bytes: in the pool, and for their slots here and behind those in `slots`.
fn take_memory<F: Fingerprint>(
    alloc: Global,
    pool: &mut Pool<F>,
    cut: &Cut<'_, F>,
    slots: &mut Vec<u32>,
) -> Result<Vec<u32>, NoMemory>
    ensures pool { IsAsBefore pool.old pool.new }
    ensures slots { slots.new.items ≡ slots.old.items }
    ensures room { IfOk result (λ placed. (placed.items ≡ []) × (length (pieces cut.now.size cut.now.bytes) ≤ vec_capacity placed)) }
    ensures more { OnOk result (vec_len slots.new + length (pieces cut.now.size cut.now.bytes) ≤ vec_capacity slots.new) }
    ensures spare { OnOk result (length (pieces cut.now.size cut.now.bytes) ≤ spare pool.new) }
    ensures few { OnOk result (pool.old.slots ≤ 16777216) }
    ensures sound { OnOk result (AreSound pool.new.size pool.new.table) }
    ensures some { OnOk result (1 ≤ cut.now.size) }
{
    let pieces = count_pieces(cut)?;
    let placed = Vec::with_capacity(alloc, pieces as usize)?;
    slots.reserve(pieces as usize)?;
    pool.reserve(alloc, pieces)?;
    Ok(placed)
}

// How many pieces the bytes have. So many that their slots have no number can't stand in memory.
fn count_pieces<F: Fingerprint>(cut: &Cut<'_, F>) -> Result<u32, NoMemory>
    ensures count { IfOk result (λ count. count ≡ length (pieces cut.now.size cut.now.bytes)) }
    ensures some { 1 ≤ cut.now.size }
{
    let count = piece_count(cut.bytes().len() as u64, cut.size());
    let Ok(count) = u32::try_from(count) else {
        return Err(AllocError);
    };
    Ok(count)
}

// Places each piece of the bytes in turn, until one is refused. The slots are added to the list, which has room for them.
fn place_each<V: Vault, F: Fingerprint>(
    alloc: Global,
    pool: &mut Pool<F>,
    vault: &mut V,
    cut: &Cut<'_, F>,
    placed: &mut Vec<u32>,
) -> Result<(), PoolFault>
    requires some { 1 ≤ cut.now.size }
    requires size { cut.now.size ≡ pool.old.size }
    requires pins { (most : ℕ) × IsPinnedAtMost most pool.old × (most + length cut.now.bytes < 2 ^ 64 - 1) }
    requires none { placed.old.items ≡ [] }
    requires room { length (pieces cut.now.size cut.now.bytes) ≤ vec_capacity placed.old }
    requires spare { length (pieces cut.now.size cut.now.bytes) ≤ spare pool.old }
    ensures slots { (start : PoolState) → IsAsBefore start pool.old → PlacedSoFar start pool.new placed.new.items }
    ensures fit { (start : PoolState) → IsAsBefore start pool.old → OnOk result (FitPieces start pool.new (pieces cut.now.size cut.now.bytes) placed.new.items) }
    ensures all { OnOk result (length placed.new.items ≡ length (pieces cut.now.size cut.now.bytes)) }
    ensures pieces { (V.disk vault.old).tells → (start : PoolState) → IsAsBefore start pool.old → OnOk result (HasPieces F.digest_of start pool.new (V.disk vault.old) (V.disk vault.new) (pieces cut.now.size cut.now.bytes) placed.new.items) }
    ensures stays_true { (V.disk vault.old).tells → (start : PoolState) → IsAsBefore start pool.old → IsTruePool F.digest_of start (V.disk vault.old).seen → OnOk result (StaysTrue F.digest_of start pool.new (V.disk vault.old) (V.disk vault.new) (pieces cut.now.size cut.now.bytes) placed.new.items) }
    ensures cause { (start : PoolState) → IsAsBefore start pool.old → IfErr result (λ fault. ¬ IsDamage fault → PlacingFails start (V.disk vault.old).faults (V.disk vault.new).faults fault) }
    ensures cause_told { (V.disk vault.old).tells → (start : PoolState) → IsAsBefore start pool.old → IfErr result (PlacingFails start (V.disk vault.old).faults (V.disk vault.new).faults) }
    ensures damaged { IfErr result (IsDamageOf F.digest_of (pieces cut.now.size cut.now.bytes)) }
    ensures memory { IfErr result (λ fault. fault ≢ PoolFault.NoMemory) }
    ensures told { (V.disk vault.old).tells → (start : PoolState) → IsAsBefore start pool.old → IsTruePool F.digest_of start (V.disk vault.old).seen → IfErr result (PlacingTold F.digest_of start (V.disk vault.old).seen cut.now.bytes) }
    ensures undamaged { (V.disk vault.old).tells → (start : PoolState) → IsAsBefore start pool.old → IsTruePool F.digest_of start (V.disk vault.old).seen → IfErr result (λ fault. ¬ IsDamage fault) }
    ensures touches { (V.disk vault.old).tells → (start : PoolState) → IsAsBefore start pool.old → Touches start ((number_held start + length (pieces cut.now.size cut.now.bytes)) * start.size) (V.disk vault.old) (V.disk vault.new) }
    ensures seen_refused { (V.disk vault.old).tells → (start : PoolState) → IsAsBefore start pool.old → IfErr result (λ fault. ¬ IsDiskFault fault → KeepsPieces start ((number_held start + length (pieces cut.now.size cut.now.bytes)) * start.size) (V.disk vault.old).seen (V.disk vault.new).seen) }
    ensures same { IsSame (V.disk vault.old) (V.disk vault.new) }
{
    let mut index = 0;
    while let Some(piece) = cut.piece(index) {
        let digest = piece.1;
        let slot = pool.find_or_place(alloc, vault, piece.0, digest)?;
        let Ok(()) = placed.push(slot) else {
            unreachable!()
        };
        index += 1;
    }
    Ok(())
}

/// Takes back one pin of each slot in the list. A slot that isn't live and has no pin left is free.
pub fn unpin_each<F: Fingerprint>(pool: &mut Pool<F>, slots: &[u32])
    requires { ArePinned pool.old slots.now }
    ensures { UnpinnedEach pool.old pool.new slots.now }
{
    for slot in slots {
        pool.unpin(*slot);
    }
}
