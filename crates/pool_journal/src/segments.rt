// The segments of a sealed copy.
ghost use Rattle.std.specs.Prelude.{◌≡◌, ◌<◌, ◌^◌, ◌-◌, ◌*◌, ◌++◌, List, ℕ, All, min, length, flat_map};
ghost use Rattle.std.specs.Int.{w32, to_be_bytes};
ghost use Rattle.site_types.specs.Fields.{IsTaken, bytes_field};
ghost use Rattle.pool_journal.specs.Fields.{IsField, count_field, counted_field, many_field};
ghost use Rattle.pool_journal.specs.Rooms.{Fits, Gets};
ghost use Rattle.pool_journal.specs.Segments.{AreCounted, SegmentFits, SegmentsFit, SlotFits, counted, segment_field, segments_field, spelled_segment, spelled_segments, spelled_slot, taken_by};

use crate::room::Room;
use site_types::{Ended, FieldFault, Fields, ListOf};
use std::alloc::Global;

/// A segment that no slot of its unit's pool held before.
#[derive(Debug, Drop)]
pub struct NewSegment {
    pub slot: u32,
    /// The number of its bytes.
    pub length: u32,
    /// The SHA-256 of its bytes (FIPS 180-4).
    pub digest: [u8; 32],
}

/// The segments of a copy.
#[derive(Debug, Drop)]
pub struct Segments {
    /// Those that are new with it.
    pub added: ListOf<NewSegment>,
    /// The slots of its pieces, in the order of its bytes.
    pub pieces: ListOf<u32>,
}

fn read_digest(fields: &mut Fields) -> Result<[u8; 32], Ended>
    ensures { IsTaken result (bytes_field 32 fields.old) fields.new }
{
    let bytes = fields.bytes(32)?;
    let mut digest = [0; 32];
    digest.copy_from_slice(bytes);
    Ok(digest)
}

fn read_segment(fields: &mut Fields) -> Result<NewSegment, FieldFault>
    ensures { IsField result (segment_field fields.old) fields.new }
{
    let slot = fields.count()?;
    let length = fields.count()?;
    let digest = read_digest(fields)?;
    Ok(NewSegment {
        slot,
        length,
        digest,
    })
}

// So many segments.
fn read_added(
    fields: &mut Fields,
    alloc: Global,
    count: u32,
) -> Result<ListOf<NewSegment>, FieldFault>
    ensures { IsField result (many_field segment_field count fields.old) fields.new }
{
    let mut added = Vec::new(alloc);
    for _ in 0..count {
        added.push(read_segment(fields)?)?;
    }
    Ok(ListOf::from_vec(added))
}

fn read_slot(fields: &mut Fields) -> Result<u32, FieldFault>
    ensures { IsField result (count_field fields.old) fields.new }
{
    Ok(fields.count()?)
}

// So many slots.
#[tactic(auto, using(crate::proofs::Many::read_broken))]
fn read_pieces(fields: &mut Fields, alloc: Global, count: u32) -> Result<ListOf<u32>, FieldFault>
    ensures { IsField result (many_field count_field count fields.old) fields.new }
{
    let mut pieces = Vec::new(alloc);
    for _ in 0..count {
        pieces.push(read_slot(fields)?)?;
    }
    Ok(ListOf::from_vec(pieces))
}

pub fn read_segments(fields: &mut Fields, alloc: Global) -> Result<Segments, FieldFault>
    ensures { IsField result (segments_field fields.old) fields.new }
{
    let count = fields.count()?;
    let added = read_added(fields, alloc, count)?;
    let count = fields.count()?;
    let pieces = read_pieces(fields, alloc, count)?;
    Ok(Segments { added, pieces })
}

fn push_number(out: &mut Room, number: u32)
    requires room { Fits out.old (to_be_bytes w32 number) }
    ensures spelled { Gets (to_be_bytes w32 number) out.old out.new }
    ensures fits { number < 2 ^ 32 }
{
    out.push(&number.to_be_bytes());
}

fn push_segment(out: &mut Room, segment: &NewSegment)
    requires room { Fits out.old (spelled_segment segment.now) }
    ensures spelled { Gets (spelled_segment segment.now) out.old out.new }
    ensures fits { SegmentFits segment.now }
{
    push_number(out, segment.slot);
    push_number(out, segment.length);
    out.push(&segment.digest);
}

fn push_added(out: &mut Room, added: &[NewSegment])
    requires room { Fits out.old (flat_map spelled_segment added.now) }
    ensures spelled { Gets (flat_map spelled_segment added.now) out.old out.new }
    ensures fits { All SegmentFits added.now }
{
    for segment in added {
        push_segment(out, segment);
    }
}

fn push_pieces(out: &mut Room, pieces: &[u32])
    requires room { Fits out.old (flat_map spelled_slot pieces.now) }
    ensures spelled { Gets (flat_map spelled_slot pieces.now) out.old out.new }
    ensures fits { All SlotFits pieces.now }
{
    for slot in pieces {
        push_number(out, *slot);
    }
}

pub fn push_segments(out: &mut Room, segments: &Segments)
    requires counted { AreCounted segments.now }
    requires room { Fits out.old (spelled_segments segments.now) }
    ensures spelled { Gets (spelled_segments segments.now) out.old out.new }
    ensures fits { SegmentsFit segments.now }
{
    let added = segments.added.as_slice();
    let pieces = segments.pieces.as_slice();
    push_number(out, added.len() as u32);
    push_added(out, added);
    push_number(out, pieces.len() as u32);
    push_pieces(out, pieces);
}

// Two numbers of four bytes, and a digest.
fn segment_size(segment: &NewSegment) -> u64
    ensures size { result ≡ length (spelled_segment segment.now) }
    ensures fixed { result ≡ 40 }
{
    8 + segment.digest.len() as u64
}

fn added_size(added: &[NewSegment]) -> u64
    ensures size { result ≡ min (length (flat_map spelled_segment added.now)) (2 ^ 64 - 1) }
    ensures fixed { length (flat_map spelled_segment added.now) ≡ 40 * length added.now }
{
    let mut size: u64 = 0;
    for segment in added {
        size = size.saturating_add(segment_size(segment));
    }
    size
}

/// The number of bytes that they take in a record, or the greatest that is counted.
pub fn segments_size(segments: &Segments) -> u64
    ensures size { result ≡ min (length (spelled_segments segments.now)) (2 ^ 64 - 1) }
    ensures taken { length (spelled_segments segments.now) ≡ taken_by segments.now }
{
    let pieces = (segments.pieces.as_slice().len() as u64).saturating_mul(4);
    added_size(segments.added.as_slice())
        .saturating_add(pieces)
        .saturating_add(8)
}
