ghost use Rattle.std.specs.Prelude.{◌≡◌, IfOk};
ghost use Rattle.std.specs.List.{before_last, after_last};
ghost use Rattle.site_types.specs.Ids.{copy_text, id_text, is_underscore, id_of, is_id};

use crate::name::is_name;
use crate::number::read_number_between;
use crate::{LAST_MOMENT, Name, NoMemory, Text};
use itoa::Buffer;
use std::alloc::Global;

/// The id of a backup: its client, and its time in seconds since 1970-01-01T00:00:00Z. Ids are in order of client, and then of time.
#[derive(Debug, Drop, PartialEq, Eq, PartialOrd, Ord)]
pub struct BackupId {
    pub client: Name,
    pub time: u64,
}

impl BackupId {
    /// The id that is written so: a name, an underscore and a time from 1 to the last moment, split at the last underscore.
    pub fn new(alloc: Global, bytes: &[u8]) -> Result<Option<BackupId>, NoMemory>
        ensures { IfOk result (λ o. o ≡ id_of bytes.now) }
    {
        let (client, time) = split_at_last_underscore(bytes);
        let Some(time) = read_number_between(time, 1, LAST_MOMENT) else {
            return Ok(None);
        };
        match Name::new(alloc, client)? {
            Some(client) => Ok(Some(BackupId { client, time })),
            None => Ok(None),
        }
    }

    pub fn copy(&self, alloc: Global) -> Result<BackupId, NoMemory>
        ensures { IfOk result (λ i. i ≡ self.now) }
    {
        Ok(BackupId {
            client: self.client.copy(alloc)?,
            time: self.time,
        })
    }

    /// The id as it is written: the client's name, an underscore and the time.
    pub fn text(&self, alloc: Global) -> Result<Text, NoMemory>
        ensures { IfOk result (λ t. t ≡ id_text self.now) }
    {
        let mut text = self.client.bytes().to_vec(alloc)?;
        text.extend_from_slice(b"_")?;
        text.extend_from_slice(Buffer::new().format(self.time).as_bytes())?;
        Ok(Text::from_vec(text))
    }

    /// A copy of the image as it is written: the id, a slash and the copy's number.
    pub fn copy_text(&self, alloc: Global, number: u8) -> Result<Text, NoMemory>
        ensures { IfOk result (λ t. t ≡ copy_text self.now number) }
    {
        let mut text = self.text(alloc)?.bytes().to_vec(alloc)?;
        text.extend_from_slice(b"/")?;
        text.extend_from_slice(Buffer::new().format(number).as_bytes())?;
        Ok(Text::from_vec(text))
    }
}

pub fn is_id(bytes: &[u8]) -> bool
    ensures { result ≡ is_id bytes.now }
{
    let (client, time) = split_at_last_underscore(bytes);
    is_name(client) && read_number_between(time, 1, LAST_MOMENT).is_some()
}

// What stands before the last underscore, and behind it; without one, all stands behind.
fn split_at_last_underscore(bytes: &[u8]) -> (&[u8], &[u8])
    ensures before { result.0.now ≡ before_last is_underscore bytes.now }
    ensures behind { result.1.now ≡ after_last is_underscore bytes.now }
{
    match bytes.iter().rposition(|byte| *byte == b'_') {
        Some(at) => (&bytes[..at], &bytes[at + 1..]),
        None => (b"", bytes),
    }
}
