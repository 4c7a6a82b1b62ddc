// Replaying the entries of a journal.
ghost use Rattle.std.specs.Prelude.{◌≡◌, ◌&&◌, ◌||◌, not, true, is_some, is_none, length, nat_le, nat_lt, List, None, IfOk, OnErr, OnOk};
ghost use Rattle.site_types.specs.Limits.{last_moment};
ghost use Rattle.slp_tree.specs.Lifecycles.{version_named};
ghost use Rattle.policy_book.specs.Lists.{has};
ghost use Rattle.policy_book.specs.Book.{client_limit, policy_name};
ghost use Rattle.image_catalogue.specs.Images.{record_named};
ghost use Rattle.pool_journal.specs.declared.entry.Entry.TheVariants as entry;
ghost use Rattle.pool_journal.specs.Records.{Found, placed};
ghost use Rattle.desk_model.specs.State.{Image, entries, has_image};
ghost use Rattle.desk_model.specs.Backups.{image_limit, is_known, operations_in, takes_all, unit_at, unit_of};
ghost use Rattle.desk_model.specs.Pieces.{piece_count, piece_limit};
ghost use Rattle.vault_ledger.specs.Fitting.{is_base_below, image_fits};
ghost use Rattle.vault_ledger.specs.Ledger.{Ledger, new_ledger, recorded};
ghost use Rattle.vault_ledger.specs.Wellformed.{IsLedger};
ghost use Rattle.desk_index.specs.Index.{IsAdmitted, IsIndexOf};
ghost use Rattle.desk_index.specs.Replays.{IsReached, IsReplayed};

use crate::image::record_of;
use crate::index::Index;
use crate::setting::settle_lines;
use desk_model::Site;
use desk_rules::{IMAGE_LIMIT, PIECE_LIMIT, piece_count, segment_of, takes_all};
use image_catalogue::Catalogue;
use policy_book::{Book, CLIENT_LIMIT};
use pool_journal::{Entry, Placed, Segments, WholeImage};
use site_types::{BackupId, Base, LAST_MOMENT, NoMemory, Unit};
use std::alloc::Global;
use vault_ledger::Storage;

fn is_new(catalogue: &Catalogue, id: &BackupId) -> bool
    ensures { result ≡ is_none (record_named id.now catalogue.now) }
{
    catalogue.find(id).is_none()
}

// The image isn't there, and there is room for it.
fn has_room(catalogue: &Catalogue, id: &BackupId) -> bool
    ensures { (images : List Image) → entries images ≡ catalogue.now → result ≡ (nat_lt (length images) image_limit && not (has_image id.now images)) }
{
    catalogue.count() < IMAGE_LIMIT && is_new(catalogue, id)
}

// The policy is there, and the version of the lifecycle.
fn is_allowed(book: &Book, image: &WholeImage) -> bool
    ensures { result ≡ (has policy_name image.now.policy book.now.policies && is_some (version_named image.now.lifecycle image.now.version book.now.lifecycles)) }
{
    book.policy(&image.policy).is_some()
        && book
            .lifecycles()
            .find(&image.lifecycle, image.version)
            .is_some()
}

// The client is there, or may be added.
fn client_fits(book: &Book, image: &WholeImage) -> bool
    ensures { result ≡ (is_known image.now.id.client book.now || (takes_all image.now.policy && nat_lt (length book.now.clients) client_limit)) }
{
    book.client(&image.id.client).is_some()
        || (takes_all(&image.policy) && book.clients().len() < CLIENT_LIMIT)
}

fn is_base_below(base: Base, time: u64) -> bool
    ensures { result ≡ is_base_below base time }
{
    match base {
        Base::None => true,
        Base::Time(before) => 1 <= before && before < time,
    }
}

fn is_in_time(image: &WholeImage) -> bool
    ensures { result ≡ (nat_le 1 image.now.id.time && nat_le image.now.id.time last_moment && is_base_below image.now.base image.now.id.time && nat_le image.now.completed last_moment) }
{
    1 <= image.id.time
        && image.id.time <= LAST_MOMENT
        && is_base_below(image.base, image.id.time)
        && image.completed <= LAST_MOMENT
}

// It has no more pieces on its unit than a copy may have.
fn has_few_pieces(book: &Book, image: &WholeImage) -> bool
    ensures { result ≡ nat_le (piece_count (unit_at (unit_of (operations_in image.now.lifecycle image.now.version book.now)) book.now).segment image.now.length) piece_limit }
{
    let segment = segment_of(book, &image.lifecycle, image.version);
    piece_count(segment, image.length) <= PIECE_LIMIT
}

fn image_fits(index: &Index, image: &WholeImage) -> bool
    ensures { (l : Ledger) → IsIndexOf l index.now → result ≡ image_fits l.outline image.now }
{
    has_room(&index.catalogue, &image.id)
        && is_allowed(&index.site.book, image)
        && client_fits(&index.site.book, image)
        && is_in_time(image)
        && has_few_pieces(&index.site.book, image)
}

/// The unit to which the backup of an image goes that fits.
pub fn unit_for<'a>(book: &'a Book, image: &WholeImage) -> &'a Unit
    requires there { (l : Ledger) × IsLedger l × (l.outline.site.book ≡ book.now) × (image_fits l.outline image.now ≡ true) }
    ensures { result.now ≡ unit_at (unit_of (operations_in image.now.lifecycle image.now.version book.now)) book.now }
{
    let Some(version) = book.lifecycles().find(&image.lifecycle, image.version) else {
        unreachable!()
    };
    let Some(unit) = book.unit(version.unit(0)) else {
        unreachable!()
    };
    unit
}

/// Takes an image into the catalogue that isn't there, and notes its time with its client; or leaves all as it was.
pub fn admit_image(alloc: Global, index: &mut Index, image: &WholeImage) -> Result<(), NoMemory>
    requires version { is_some (version_named image.now.lifecycle image.now.version index.old.site.book.lifecycles) ≡ true }
    requires new { record_named image.now.id index.old.catalogue ≡ None }
    ensures admitted { OnOk result (IsAdmitted image.now index.old index.new) }
    ensures unchanged { OnErr result (index.new ≡ index.old) }
{
    let record = record_of(alloc, &index.site.book, image)?;
    index.admit(alloc, record)
}

// Takes in a backup, if it fits. False where it doesn't; then nothing is said of the index.
fn take_backup(
    alloc: Global,
    index: &mut Index,
    image: &WholeImage,
    segments: &Segments,
) -> Result<bool, NoMemory>
    requires known { (l : Ledger) × IsIndexOf l index.old }
    ensures { (l : Ledger) → IsIndexOf l index.old → IfOk result (IsReached (recorded l (entry.BackupSealed image.now segments.now)) index.new) }
{
    if !image_fits(index, image) {
        return Ok(false);
    }
    let unit = unit_for(&index.site.book, image);
    if !index.storage.take_backup(alloc, unit, image, segments)? {
        return Ok(false);
    }
    admit_image(alloc, index, image)?;
    Ok(true)
}

// Replays a record. False where it doesn't fit; then nothing is said of the index.
fn replay_record(alloc: Global, index: &mut Index, placed: &Placed) -> Result<bool, NoMemory>
    requires known { (l : Ledger) × IsIndexOf l index.old }
    ensures { (l : Ledger) → IsIndexOf l index.old → IfOk result (IsReached (recorded l placed.now.entry) index.new) }
{
    match &placed.entry {
        Entry::Settings { lines } => settle_lines(alloc, index, lines.as_slice()),
        Entry::BackupSealed { image, segments } => take_backup(alloc, index, image, segments),
        Entry::CopySealed { .. } => Ok(false),
    }
}

// The index of a new vault.
fn of_new_vault(alloc: Global) -> Result<Index, NoMemory>
    ensures { IfOk result (IsIndexOf new_ledger) }
{
    Ok(Index {
        site: Site::new(alloc)?,
        catalogue: Catalogue::new(alloc),
        storage: Storage::new(alloc)?,
    })
}

/// What entries make.
#[derive(Drop)]
pub struct Replayed {
    pub index: Index,
    /// The offset of the first record that doesn't fit.
    pub bad: Option<u64>,
}

/// Replays entries from the ledger of a new vault on.
pub fn replay(alloc: Global, entries: &[Placed]) -> Result<Replayed, NoMemory>
    ensures replayed { IfOk result (λ r. (fs : List Found) → placed fs ≡ entries.now → IsReplayed fs r.index r.bad) }
    // There is a ledger for the index, also where the records are those of no vault that tells.
    ensures known { IfOk result (λ r. r.bad ≡ None → (l : Ledger) × IsIndexOf l r.index) }
{
    let mut index = of_new_vault(alloc)?;
    for placed in entries {
        if !replay_record(alloc, &mut index, placed)? {
            return Ok(Replayed {
                index,
                bad: Some(placed.at),
            });
        }
    }
    Ok(Replayed { index, bad: None })
}
