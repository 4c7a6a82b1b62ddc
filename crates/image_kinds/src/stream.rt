ghost use Rattle.std.specs.Prelude.{◌≡◌};
ghost use Rattle.image_kinds.specs.Streams.{IsStream, IsImage};

use crate::entry::{Entry, Item};
use std::marker::Model;

/// The files of a client as it sent them, in the order of the bytes of their paths. Contracts see it as the list of its entries.
#[derive(Debug, Drop)]
pub struct Stream<'a> {
    entries: Vec<Entry<'a>>,
}

impl<'a> Model for Stream<'a> {
    ghost use Rattle.std.specs.Prelude.{List};
    ghost use Rattle.image_kinds.specs.declared.entry.Entry.{Entry};
    ghost use Rattle.image_kinds.specs.Streams.{IsStream};

    ghost Value = { List Entry };

    ghost view = { λ s. s.entries.items };

    ghost invariant = { λ s. IsStream s.entries.items };
}

impl<'a> Stream<'a> {
    /// The stream of these entries, in their memory.
    pub fn new(entries: Vec<Entry<'a>>) -> Stream<'a>
        requires { IsStream entries.items }
        ensures { result ≡ entries.entry.items }
    {
        Stream { entries }
    }

    /// Its entries, whose paths are paths and rise strictly.
    pub fn entries(&self) -> &[Entry<'a>]
        ensures entries { result.now ≡ self.now }
        ensures stream { IsStream self.now }
    {
        &self.entries
    }
}

/// What an image names: the files that it took, and those that it kept. Contracts see it as the list of its items.
#[derive(Debug, Drop)]
pub struct ImageBody<'a> {
    items: Vec<Item<'a>>,
}

impl<'a> Model for ImageBody<'a> {
    ghost use Rattle.std.specs.Prelude.{List};
    ghost use Rattle.image_kinds.specs.declared.entry.Item.{Item};
    ghost use Rattle.image_kinds.specs.Streams.{IsImage};

    ghost Value = { List Item };

    ghost view = { λ i. i.items.items };

    ghost invariant = { λ i. IsImage i.items.items };
}

impl<'a> ImageBody<'a> {
    /// The image of these items, in their memory.
    pub fn new(items: Vec<Item<'a>>) -> ImageBody<'a>
        requires { IsImage items.items }
        ensures { result ≡ items.entry.items }
    {
        ImageBody { items }
    }

    /// Its items, whose paths are paths and rise strictly.
    pub fn items(&self) -> &[Item<'a>]
        ensures items { result.now ≡ self.now }
        ensures image { IsImage self.now }
    {
        &self.items
    }
}
