// Reading the fields of a stream, from its front on.
ghost use Rattle.std.specs.Prelude.{◌≡◌, ◌&&◌, ◌==◌, length, Option, Result, Ok, Err};
ghost use Rattle.site_types.specs.Fields.{borrowed};
ghost use Rattle.image_kinds.specs.Streams.{letters_of};
ghost use Rattle.image_kinds.specs.Fields.{letters_at, path_length_at, path_bytes_at, path_at, content_at, entry_at, end_at, taken_at, kept_at, tagged_at, item_at, IsRead, IsAfter};

use crate::bytes::Bytes;
use crate::entry::{Entry, Item};
use crate::format::Format;
use crate::path::{follows, is_path_length};
use site_types::{FieldFault, Fields};
use std::marker::Model;

// The bytes that are still to be read.
#[derive(Drop)]
pub struct Cursor<'a> {
    fields: Fields<'a>,
}

impl<'a> Model for Cursor<'a> {
    ghost use Rattle.std.specs.Prelude.{List, ℕ};

    ghost Value = { List ℕ };

    ghost view = { λ c. c.fields };
}

impl<'a> Cursor<'a> {
    pub fn new(bytes: &'a [u8]) -> Cursor<'a>
        ensures { result ≡ bytes.now }
    {
        Cursor {
            fields: Fields::new(bytes),
        }
    }

    pub fn letters(&mut self, format: Format) -> Result<(), FieldFault>
        ensures { IsAfter result (letters_at (letters_of format) self.old) self.new }
    {
        let letters = format.letters();
        let bytes = self.fields.rest();
        if bytes.starts_with(letters) {
            self.fields = Fields::new(&bytes[letters.len()..]);
            return Ok(());
        }
        if letters.starts_with(bytes) {
            return Err(FieldFault::Broken(0));
        }
        Err(FieldFault::Broken(bytes.len()))
    }

    fn path_length(&mut self) -> Result<u16, FieldFault>
        ensures { IsRead result (path_length_at self.old) self.new }
    {
        let left = self.fields.rest().len();
        let count = self.fields.short()?;
        if !is_path_length(usize::from(count)) {
            return Err(FieldFault::Broken(left));
        }
        Ok(count)
    }

    fn path_bytes(&mut self, last: &[u8], count: u16) -> Result<&'a [u8], FieldFault>
        ensures { IsRead (borrowed result) (path_bytes_at last.now count self.old) self.new }
    {
        let left = self.fields.rest().len();
        let path = self.fields.bytes(u64::from(count))?;
        if !follows(last, path) {
            return Err(FieldFault::Broken(left));
        }
        Ok(path)
    }

    // A path that stands behind a last one.
    fn path(&mut self, last: &[u8]) -> Result<Bytes<'a>, FieldFault>
        ensures { IsRead result (path_at last.now self.old) self.new }
    {
        let count = self.path_length()?;
        let path = self.path_bytes(last, count)?;
        Ok(Bytes::new(path))
    }

    fn content(&mut self) -> Result<Bytes<'a>, FieldFault>
        ensures { IsRead result (content_at self.old) self.new }
    {
        let count = self.fields.long()?;
        let content = self.fields.bytes(count)?;
        Ok(Bytes::new(content))
    }

    fn entry(&mut self, last: &[u8]) -> Result<Entry<'a>, FieldFault>
        ensures { IsRead result (entry_at last.now self.old) self.new }
    {
        let path = self.path(last)?;
        let time = self.fields.long()?;
        let content = self.content()?;
        Ok(Entry {
            path,
            time,
            content,
        })
    }

    // Nothing, where nothing is left.
    fn end(&mut self) -> Result<Option<Item<'a>>, FieldFault>
        ensures { IsRead result (end_at self.old) self.new }
    {
        let left = self.fields.rest().len();
        if left != 0 {
            return Err(FieldFault::Broken(left));
        }
        Ok(None)
    }

    fn taken(&mut self, last: &[u8]) -> Result<Option<Item<'a>>, FieldFault>
        ensures { IsRead result (taken_at last.now self.old) self.new }
    {
        let entry = self.entry(last)?;
        Ok(Some(Item::Taken(entry)))
    }

    fn kept(&mut self, last: &[u8]) -> Result<Option<Item<'a>>, FieldFault>
        ensures { IsRead result (kept_at last.now self.old) self.new }
    {
        let path = self.path(last)?;
        Ok(Some(Item::Kept(path)))
    }

    // The next item behind one with a last path, and None at the end.
    pub fn item(&mut self, format: Format, last: &[u8]) -> Result<Option<Item<'a>>, FieldFault>
        ensures { IsRead result (item_at format last.now self.old) self.new }
    {
        let left = self.fields.rest().len();
        match self.fields.byte()? {
            0 => self.end(),
            1 => self.taken(last),
            2 if format.keeps() => self.kept(last),
            _ => Err(FieldFault::Broken(left)),
        }
    }
}
