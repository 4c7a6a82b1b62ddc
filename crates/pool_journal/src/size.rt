// How much an entry takes in its record.
ghost use Rattle.std.specs.Prelude.{◌≡◌, ◌+◌, ◌-◌, ◌^◌, ◌<◌, ◌≤◌, ◌++◌, ℕ, min, length};
ghost use Rattle.pool_journal.specs.Fields.{strings};
ghost use Rattle.pool_journal.specs.Entries.{spelled_copy, spelled_entry, spelled_id, spelled_image, HasShortFields};

use crate::entry::{Entry, WholeImage};
use crate::segments::segments_size;
use site_types::{BackupId, Text};

// The kind, the numbers of an image, and the lengths of its names.
const WITHOUT_NAMES: u64 = 44;

fn image_size(image: &WholeImage) -> u64
    ensures size { result ≡ 1 + length (spelled_image image.now) }
    ensures short { result ≤ 300 }
{
    let names = image.id.client.bytes().len()
        + image.policy.bytes().len()
        + image.schedule.bytes().len()
        + image.lifecycle.bytes().len();
    WITHOUT_NAMES + names as u64
}

// The kind, the id, the copy's number and its completion.
fn copy_size(id: &BackupId) -> u64
    ensures size { (copy completed : ℕ) → result ≡ 1 + length (spelled_id id.now ++ spelled_copy copy completed) }
    ensures short { result ≤ 84 }
{
    20 + id.client.bytes().len() as u64
}

// The lines with their lengths.
fn strings_size(texts: &[Text]) -> u64
    ensures { result ≡ min (length (strings texts.now)) (2 ^ 64 - 1) }
{
    let mut size: u64 = 0;
    for text in texts {
        let length = text.bytes().len() as u64;
        size = size.saturating_add(2).saturating_add(length);
    }
    size
}

impl Entry {
    /// The number of bytes that it takes in a record. A backup takes at most 308 and a copy 92, with 40 more for each new segment
    /// and 4 more for each piece.
    pub fn size(&self) -> u64
        ensures size { length (spelled_entry self.now) < 2 ^ 64 → result ≡ length (spelled_entry self.now) }
        ensures short { HasShortFields self.now }
    {
        match self {
            Entry::Settings { lines } => strings_size(lines.as_slice()).saturating_add(5),
            Entry::BackupSealed { image, segments } => {
                segments_size(segments).saturating_add(image_size(image))
            }
            Entry::CopySealed { id, segments, .. } => {
                segments_size(segments).saturating_add(copy_size(id))
            }
        }
    }
}
