// What a record says.
//
// The lines of a settings record may be any: whether each is a request of the site is tested where it is made fit, and both are
// answered alike. So the journal need not know the requests, and a line is read once.
ghost use Rattle.std.specs.Prelude.{◌≡◌, IfOk, Ok};
ghost use Rattle.pool_journal.specs.Fields.{IsField};
ghost use Rattle.pool_journal.specs.Entries.{id_field, made_under_field, taken_as_field, version_field, moments_field, settings_field, backup_field, copied_as_field, copy_field, stored_copy_field, whole_image_field, IsAlone, IsEntry};

use crate::fields::{read_base, read_kind, read_name, read_strings};
use crate::segments::{Segments, read_segments};
use site_types::{BackupId, Base, FieldFault, Fields, Kind, ListOf, Name, Text};
use std::alloc::Global;

/// What was recorded, in the order of the kinds' numbers.
#[derive(Debug, Drop)]
pub enum Entry {
    /// The site was changed by requests, each given by its line.
    Settings {
        lines: ListOf<Text>,
    },
    /// A backup was sealed, and its bytes stand in segments.
    BackupSealed {
        image: WholeImage,
        segments: Segments,
    },
    /// A copy of an image was sealed, with its number and the moment, in seconds since 1970-01-01T00:00:00Z.
    CopySealed {
        id: BackupId,
        copy: u8,
        completed: u64,
        segments: Segments,
    },
}

/// An image that was sealed. Moments are seconds since 1970-01-01T00:00:00Z.
#[derive(Debug, Drop)]
pub struct WholeImage {
    pub id: BackupId,
    pub policy: Name,
    pub schedule: Name,
    pub kind: Kind,
    pub base: Base,
    pub lifecycle: Name,
    pub version: u16,
    pub completed: u64,
    /// The number of its bytes.
    pub length: u64,
}

fn read_id(fields: &mut Fields, alloc: Global) -> Result<BackupId, FieldFault>
    ensures { IsField result (id_field fields.old) fields.new }
{
    let client = read_name(fields, alloc)?;
    let time = fields.long()?;
    Ok(BackupId { client, time })
}

fn read_policy_and_schedule(fields: &mut Fields, alloc: Global) -> Result<(Name, Name), FieldFault>
    ensures { IsField result (made_under_field fields.old) fields.new }
{
    let policy = read_name(fields, alloc)?;
    let schedule = read_name(fields, alloc)?;
    Ok((policy, schedule))
}

fn read_kind_and_base(fields: &mut Fields) -> Result<(Kind, Base), FieldFault>
    ensures { IsField result (taken_as_field fields.old) fields.new }
{
    let kind = read_kind(fields)?;
    let base = read_base(fields)?;
    Ok((kind, base))
}

fn read_lifecycle(fields: &mut Fields, alloc: Global) -> Result<(Name, u16), FieldFault>
    ensures { IsField result (version_field fields.old) fields.new }
{
    let lifecycle = read_name(fields, alloc)?;
    let version = fields.short()?;
    Ok((lifecycle, version))
}

fn read_completed_and_length(fields: &mut Fields) -> Result<(u64, u64), FieldFault>
    ensures { IsField result (moments_field fields.old) fields.new }
{
    let completed = fields.long()?;
    let length = fields.long()?;
    Ok((completed, length))
}

fn read_settings(fields: &mut Fields, alloc: Global) -> Result<ListOf<Text>, FieldFault>
    ensures { IsField result (settings_field fields.old) fields.new }
{
    let count = fields.count()?;
    read_strings(fields, alloc, count)
}

fn read_whole_image(fields: &mut Fields, alloc: Global) -> Result<WholeImage, FieldFault>
    ensures { IsField result (whole_image_field fields.old) fields.new }
{
    let id = read_id(fields, alloc)?;
    let (policy, schedule) = read_policy_and_schedule(fields, alloc)?;
    let (kind, base) = read_kind_and_base(fields)?;
    let (lifecycle, version) = read_lifecycle(fields, alloc)?;
    let (completed, length) = read_completed_and_length(fields)?;
    Ok(WholeImage {
        id,
        policy,
        schedule,
        kind,
        base,
        lifecycle,
        version,
        completed,
        length,
    })
}

fn read_backup(fields: &mut Fields, alloc: Global) -> Result<(WholeImage, Segments), FieldFault>
    ensures { IsField result (backup_field fields.old) fields.new }
{
    let image = read_whole_image(fields, alloc)?;
    let segments = read_segments(fields, alloc)?;
    Ok((image, segments))
}

fn read_number_and_completed(fields: &mut Fields) -> Result<(u8, u64), FieldFault>
    ensures { IsField result (copied_as_field fields.old) fields.new }
{
    let copy = fields.byte()?;
    let completed = fields.long()?;
    Ok((copy, completed))
}

fn read_copy(fields: &mut Fields, alloc: Global) -> Result<(BackupId, (u8, u64)), FieldFault>
    ensures { IsField result (copy_field fields.old) fields.new }
{
    let id = read_id(fields, alloc)?;
    let copied_as = read_number_and_completed(fields)?;
    Ok((id, copied_as))
}

fn read_stored_copy(
    fields: &mut Fields,
    alloc: Global,
) -> Result<((BackupId, (u8, u64)), Segments), FieldFault>
    ensures { IsField result (stored_copy_field fields.old) fields.new }
{
    let copy = read_copy(fields, alloc)?;
    let segments = read_segments(fields, alloc)?;
    Ok((copy, segments))
}

// An entry behind which nothing may stand in its record's body.
fn alone(entry: Entry, rest: &[u8]) -> Result<Entry, FieldFault>
    ensures { IsAlone result entry rest.now }
{
    if !rest.is_empty() {
        return Err(FieldFault::Broken(rest.len()));
    }
    Ok(entry)
}

/// The entry that a record's body spells.
pub fn read_entry(alloc: Global, body: &[u8]) -> Result<Entry, FieldFault>
    ensures { IsEntry result body.now }
{
    let mut fields = Fields::new(body);
    match fields.byte()? {
        1 => {
            let lines = read_settings(&mut fields, alloc)?;
            alone(Entry::Settings { lines }, fields.rest())
        }
        2 => {
            let (image, segments) = read_backup(&mut fields, alloc)?;
            alone(Entry::BackupSealed { image, segments }, fields.rest())
        }
        3 => {
            let ((id, (copy, completed)), segments) = read_stored_copy(&mut fields, alloc)?;
            let entry = Entry::CopySealed {
                id,
                copy,
                completed,
                segments,
            };
            alone(entry, fields.rest())
        }
        _ => Err(FieldFault::Broken(body.len())),
    }
}
