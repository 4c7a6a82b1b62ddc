// A backup's bytes in its unit's pool, and their record in the journal.
ghost use Rattle.std.specs.Prelude.{◌≡◌, ◌≢◌, ◌+◌, ◌-◌, ◌*◌, ◌<◌, ◌≤◌, ◌^◌, ◌++◌, [], ℕ, List, length, true, vec_capacity, IfOk, IfErr, OnOk, OnErr};
ghost use Rattle.sha2.specs.Sha256.{sha256};
ghost use Rattle.site_types.specs.declared.image.Base.TheVariants as base;
ghost use Rattle.vault_disk.specs.Disk.{During, Image, IsSame, Now};
ghost use Rattle.vault_disk.specs.Steps.{Rests, Rose};
ghost use Rattle.pool_journal.specs.Records.{Found};
ghost use Rattle.pool_journal.specs.Stops.{AtRest, Appended, Stops};
ghost use Rattle.pool_journal.specs.declared.segments.NewSegment.{NewSegment as Segment};
ghost use Rattle.segment_pool.specs.Pieces.{pieces};
ghost use Rattle.segment_pool.specs.Placing.{IsTruePool, KeepsPieces, Touches};
ghost use Rattle.segment_pool.specs.Faults.{IsDamage, IsDiskFault};
ghost use Rattle.segment_pool.specs.Slots.{IsAsBefore, IsPinnedAtMost, number_held};
ghost use Rattle.copy_fragments.specs.Placings.{PlacingFails, PlacingTold, new_pieces};
ghost use Rattle.desk_model.specs.Pieces.{piece_limit};
ghost use Rattle.vault_ledger.specs.Following.{CountsFit, IsSamePool};
ghost use Rattle.vault_ledger.specs.Pools.{HoldsLive, slots_in, unrecorded};
ghost use Rattle.vault_ledger.specs.Fitting.{image_fits};
ghost use Rattle.vault_ledger.specs.Keeping.{Between, KeptLedger, SaysLedger};
ghost use Rattle.vault_ledger.specs.Ledger.{Ledger, backup_fits, segments_fit, spelled, state_over, with_backup};
ghost use Rattle.vault_ledger.specs.Sealing.{HasRoom, HasSlots, IsPoolFor, IsSealed, IsToRecord, IsUnsealed, IsWithin, SealingFails, state_sealed};
ghost use Rattle.vault_ledger.specs.Wellformed.{IsLedger};

use crate::keeping::keep_pieces;
use copy_fragments::{piece_count, place};
use pool_journal::{Entry, Journal, NewSegment, Room, Segments, WholeImage};
use segment_pool::{Cut, NoMemory, Pool, PoolFault, Sha256Print};
use site_types::ListOf;
use std::alloc::Global;
use vault_disk::{Failed, Vault};

// What the record of a backup takes at most, beside its pieces: its fields, its length, and the closed gate of the next record.
const RECORD_SIZE: u64 = 313;
// What a piece takes at most: its slot, and a new segment.
const PIECE_SIZE: u64 = 44;

/// Stores the bytes of a backup in its unit's pool, whose file has this number, and records the backup in the journal. Gives the
/// slots of its pieces.
///
/// All memory is taken before the first call of the vault. After a fault of the disk nothing is said of the pool and the journal;
/// after another one both are as they were.
pub fn seal_backup<V: Vault>(
    alloc: Global,
    journal: &mut Journal,
    pool: &mut Pool<Sha256Print>,
    vault: &mut V,
    file: u32,
    image: WholeImage,
    cut: &Cut<'_, Sha256Print>,
) -> Result<Vec<u32>, PoolFault>
    requires file { file ≡ pool.old.file }
    requires size { cut.now.size ≡ pool.old.size }
    requires base { image.base ≢ base.Time 0 }
    requires few { length (pieces cut.now.size cut.now.bytes) ≤ piece_limit }
    requires pins { (most : ℕ) × IsPinnedAtMost most pool.old × (most + length cut.now.bytes < 2 ^ 64 - 1) }
    requires counts { CountsFit (length (pieces cut.now.size cut.now.bytes)) pool.old }
    ensures sealed { (l : Ledger) → IsLedger l → image_fits l.outline image ≡ true → image.length ≡ length cut.now.bytes → IsPoolFor l image pool.old → IfOk result (λ slots. IsSealed l image cut.now.bytes (V.disk vault.old) (V.disk vault.new) journal.old journal.new pool.new slots.items) }
    ensures unsealed { (l : Ledger) → IsLedger l → image_fits l.outline image ≡ true → image.length ≡ length cut.now.bytes → IsPoolFor l image pool.old → IfErr result (λ fault. ¬ IsDiskFault fault → IsUnsealed l (V.disk vault.old) (V.disk vault.new) journal.old journal.new) }
    ensures between { (l : Ledger) → IsLedger l → image_fits l.outline image ≡ true → image.length ≡ length cut.now.bytes → IsPoolFor l image pool.old → (V.disk vault.old).tells → KeptLedger (V.disk vault.old) journal.old l → Between (state_over (V.disk vault.old).seen l) (state_sealed (state_over (V.disk vault.old).seen l) image cut.now.bytes) (V.disk vault.old) (V.disk vault.new) }
    ensures unfailed { (l : Ledger) → IsLedger l → image_fits l.outline image ≡ true → image.length ≡ length cut.now.bytes → IsPoolFor l image pool.old → (V.disk vault.old).tells → KeptLedger (V.disk vault.old) journal.old l → IfErr result (SealingFails pool.old.slots (state_over (V.disk vault.old).seen l) image cut.now.bytes) }
    ensures slots { (l : Ledger) → IsLedger l → image_fits l.outline image ≡ true → image.length ≡ length cut.now.bytes → IsPoolFor l image pool.old → (V.disk vault.old).tells → KeptLedger (V.disk vault.old) journal.old l → OnOk result (HasSlots pool.old.slots (state_over (V.disk vault.old).seen l) image cut.now.bytes) }
    ensures unfilled { (l : Ledger) → IsLedger l → image_fits l.outline image ≡ true → image.length ≡ length cut.now.bytes → IsPoolFor l image pool.old → (V.disk vault.old).tells → KeptLedger (V.disk vault.old) journal.old l → ¬ HasSlots pool.old.slots (state_over (V.disk vault.old).seen l) image cut.now.bytes → Between (state_over (V.disk vault.old).seen l) (state_over (V.disk vault.old).seen l) (V.disk vault.old) (V.disk vault.new) }
    ensures pool { IsSamePool pool.old pool.new }
    ensures number { IfOk result (λ slots. length slots.items ≡ length (pieces cut.now.size cut.now.bytes)) }
    ensures refused { IfErr result (λ fault. ¬ IsDiskFault fault → IsAsBefore pool.old pool.new × (journal.new ≡ journal.old)) }
    ensures cause { IfErr result (λ fault. ¬ IsDamage fault → PlacingFails pool.old (V.disk vault.old).faults (V.disk vault.new).faults fault) }
    ensures memory { IfErr result (λ fault. fault ≡ PoolFault.NoMemory → vault.new ≡ vault.old) }
    ensures same { IsSame (V.disk vault.old) (V.disk vault.new) }
{
    let (room, mut added, mut pieces) = take_memory(alloc, cut)?;
    let slots = store_pieces(alloc, pool, vault, cut, &mut added)?;
    copy_slots(&slots, &mut pieces);
    let segments = Segments {
        added: ListOf::from_vec(added),
        pieces: ListOf::from_vec(pieces),
    };
    record_backup(journal, vault, file, room, image, segments)?;
    Ok(slots)
}

// Takes memory for the record of a backup, for the segments that may be new with it, and for its slots.
fn take_memory(
    alloc: Global,
    cut: &Cut<'_, Sha256Print>,
) -> Result<(Room, Vec<NewSegment>, Vec<u32>), NoMemory>
    requires few { length (pieces cut.now.size cut.now.bytes) ≤ piece_limit }
    ensures room { IfOk result (λ memory. HasRoom (length (pieces cut.now.size cut.now.bytes)) memory.0) }
    ensures added { IfOk result (λ memory. (memory.1.items ≡ []) × (length (pieces cut.now.size cut.now.bytes) ≤ vec_capacity memory.1)) }
    ensures slots { IfOk result (λ memory. (memory.2.items ≡ []) × (length (pieces cut.now.size cut.now.bytes) ≤ vec_capacity memory.2)) }
{
    let count = count_pieces(cut);
    let room = Room::reserve(alloc, RECORD_SIZE + PIECE_SIZE * count)?;
    let added = Vec::with_capacity(alloc, count as usize)?;
    let slots = Vec::with_capacity(alloc, count as usize)?;
    Ok((room, added, slots))
}

// Copies slots into memory that was taken for them: the record has its own.
fn copy_slots(slots: &[u32], copy: &mut Vec<u32>)
    requires empty { copy.old.items ≡ [] }
    requires room { length slots.now ≤ vec_capacity copy.old }
    ensures { copy.new.items ≡ slots.now }
{
    let Ok(()) = copy.extend_from_slice(slots) else {
        unreachable!()
    };
}

// How many pieces the bytes have.
fn count_pieces(cut: &Cut<'_, Sha256Print>) -> u64
    ensures { result ≡ length (pieces cut.now.size cut.now.bytes) }
{
    piece_count(cut.bytes().len() as u64, cut.size())
}

// Places the pieces of a backup and keeps them. The segments that are new with it are added to the list.
fn store_pieces<V: Vault>(
    alloc: Global,
    pool: &mut Pool<Sha256Print>,
    vault: &mut V,
    cut: &Cut<'_, Sha256Print>,
    added: &mut Vec<NewSegment>,
) -> Result<Vec<u32>, PoolFault>
    requires size { cut.now.size ≡ pool.old.size }
    requires few { length (pieces cut.now.size cut.now.bytes) ≤ piece_limit }
    requires pins { (most : ℕ) × IsPinnedAtMost most pool.old × (most + length cut.now.bytes < 2 ^ 64 - 1) }
    requires counts { CountsFit (length (pieces cut.now.size cut.now.bytes)) pool.old }
    requires empty { added.old.items ≡ [] }
    requires room { length (pieces cut.now.size cut.now.bytes) ≤ vec_capacity added.old }
    ensures number { IfOk result (λ slots. length slots.items ≡ length (pieces cut.now.size cut.now.bytes)) }
    ensures few { OnOk result (length added.new.items ≤ length (pieces cut.now.size cut.now.bytes)) }
    ensures kept { (known : List Segment) (named : List ℕ) → HoldsLive known named pool.old → IfOk result (λ slots. HoldsLive (known ++ added.new.items) (named ++ slots.items) pool.new × (slots_in added.new.items ≡ unrecorded (slots_in known) slots.items)) }
    ensures fit { (known : List Segment) (named : List ℕ) → 1 ≤ pool.old.size → HoldsLive known named pool.old → IfOk result (λ slots. segments_fit pool.old.size known (length cut.now.bytes) (record { added = added.new.items; pieces = slots.items }) ≡ true) }
    ensures spells { (V.disk vault.old).tells → 1 ≤ pool.old.size → IfOk result (λ slots. spelled ((V.disk vault.new).seen pool.old.file) pool.old.size (length cut.now.bytes) slots.items ≡ cut.now.bytes) }
    ensures stays_true { (known : List Segment) (named : List ℕ) → (V.disk vault.old).tells → HoldsLive known named pool.old → IsTruePool sha256 pool.old (V.disk vault.old).seen → OnOk result (IsTruePool sha256 pool.new (V.disk vault.new).seen) }
    ensures seen { (V.disk vault.old).tells → OnOk result ((most : ℕ) × KeepsPieces pool.old most (V.disk vault.old).seen (V.disk vault.new).seen) }
    ensures pool { IsSamePool pool.old pool.new }
    ensures refused { OnErr result (IsAsBefore pool.old pool.new) }
    ensures fits { (V.disk vault.old).tells → IsTruePool sha256 pool.old (V.disk vault.old).seen → OnOk result (IsWithin pool.old (new_pieces pool.old (V.disk vault.old).seen cut.now.bytes)) }
    ensures cause { IfErr result (λ fault. ¬ IsDamage fault → PlacingFails pool.old (V.disk vault.old).faults (V.disk vault.new).faults fault) }
    ensures cause_told { (V.disk vault.old).tells → IfErr result (PlacingFails pool.old (V.disk vault.old).faults (V.disk vault.new).faults) }
    ensures memory { IfErr result (λ fault. fault ≡ PoolFault.NoMemory → vault.new ≡ vault.old) }
    ensures told { (V.disk vault.old).tells → IsTruePool sha256 pool.old (V.disk vault.old).seen → IfErr result (PlacingTold sha256 pool.old (V.disk vault.old).seen cut.now.bytes) }
    ensures undamaged { (V.disk vault.old).tells → IsTruePool sha256 pool.old (V.disk vault.old).seen → IfErr result (λ fault. ¬ IsDamage fault) }
    ensures touches { (V.disk vault.old).tells → Touches pool.old ((number_held pool.old + length (pieces cut.now.size cut.now.bytes)) * pool.old.size) (V.disk vault.old) (V.disk vault.new) }
    ensures seen_refused { (V.disk vault.old).tells → IfErr result (λ fault. ¬ IsDiskFault fault → KeepsPieces pool.old ((number_held pool.old + length (pieces cut.now.size cut.now.bytes)) * pool.old.size) (V.disk vault.old).seen (V.disk vault.new).seen) }
    ensures same { IsSame (V.disk vault.old) (V.disk vault.new) }
{
    let mut slots = Vec::new(alloc);
    place(alloc, pool, vault, cut, &mut slots)?;
    keep_pieces(pool, &slots, added);
    Ok(slots)
}

// Makes the pieces of a backup's new segments durable, and then writes its record.
fn record_backup<V: Vault>(
    journal: &mut Journal,
    vault: &mut V,
    file: u32,
    room: Room,
    image: WholeImage,
    segments: Segments,
) -> Result<(), Failed>
    requires base { image.base ≢ base.Time 0 }
    requires few { length segments.pieces ≤ piece_limit }
    requires fewer { length segments.added ≤ length segments.pieces }
    requires room { HasRoom (length segments.pieces) room }
    ensures says { (l : Ledger) → (V.disk vault.old).tells → backup_fits l image segments ≡ true → SaysLedger (V.disk vault.old) journal.old l → OnOk result (SaysLedger (V.disk vault.new) journal.new (with_backup image segments l)) }
    ensures kept { (l : Ledger) → (V.disk vault.old).tells → IsToRecord l image segments file (V.disk vault.old).seen → KeptLedger (V.disk vault.old) journal.old l → OnOk result (KeptLedger (V.disk vault.new) journal.new (with_backup image segments l) × (state_over (V.disk vault.new).seen (with_backup image segments l) ≡ state_over (V.disk vault.old).seen (with_backup image segments l))) }
    ensures between { (l : Ledger) → (V.disk vault.old).tells → IsToRecord l image segments file (V.disk vault.old).seen → KeptLedger (V.disk vault.old) journal.old l → Between (state_over (V.disk vault.old).seen l) (state_over (V.disk vault.old).seen (with_backup image segments l)) (V.disk vault.old) (V.disk vault.new) }
    ensures same { IsSame (V.disk vault.old) (V.disk vault.new) }
    ensures failed { OnErr result (Rose (V.disk vault.old).faults (V.disk vault.new).faults) }
{
    sync_added(vault, file, segments.added.as_slice())?;
    write_backup(journal, vault, room, image, segments)
}

// Makes the pieces of new segments durable, where there are any.
fn sync_added<V: Vault>(vault: &mut V, file: u32, added: &[NewSegment]) -> Result<(), Failed>
    ensures durable { added.now ≢ [] → (V.disk vault.old).tells → OnOk result ((c : Image) → (V.disk vault.new).may_leave c → c file ≡ (V.disk vault.old).seen file) }
    ensures rests { (V.disk vault.old).tells → Rests (V.disk vault.old) (V.disk vault.new) }
    ensures during { (V.disk vault.old).tells → During (V.disk vault.old) (V.disk vault.new) (Now (V.disk vault.new)) }
    ensures same { IsSame (V.disk vault.old) (V.disk vault.new) }
    ensures failed { OnErr result (Rose (V.disk vault.old).faults (V.disk vault.new).faults) }
{
    if !added.is_empty() {
        vault.sync(file)?;
    }
    Ok(())
}

// Writes the record of a backup into memory that was taken for it, and then to the disk.
fn write_backup<V: Vault>(
    journal: &mut Journal,
    vault: &mut V,
    room: Room,
    image: WholeImage,
    segments: Segments,
) -> Result<(), Failed>
    requires base { image.base ≢ base.Time 0 }
    requires few { length segments.pieces ≤ piece_limit }
    requires fewer { length segments.added ≤ length segments.pieces }
    requires room { HasRoom (length segments.pieces) room }
    ensures appended { (fs : List Found) → (V.disk vault.old).tells → AtRest (V.disk vault.old) journal.old fs → OnOk result (Appended fs journal.old (Entry.BackupSealed image segments) (V.disk vault.old) (V.disk vault.new) journal.new) }
    ensures stops { (fs : List Found) → (V.disk vault.old).tells → AtRest (V.disk vault.old) journal.old fs → Stops fs journal.old (Entry.BackupSealed image segments) (V.disk vault.old) (V.disk vault.new) }
    ensures same { IsSame (V.disk vault.old) (V.disk vault.new) }
    ensures failed { OnErr result (Rose (V.disk vault.old).faults (V.disk vault.new).faults) }
{
    let entry = Entry::BackupSealed { image, segments };
    // It tells that the record takes no more than its room.
    let _size = entry.size();
    let staged = Journal::stage_in(room, &entry);
    journal.write(vault, &staged)
}
