// The images of one client, from the latest on.
ghost use Rattle.std.specs.Iterator.{at_most};
ghost use Rattle.std.specs.Map.Iter.{TakesFirst, deref};
ghost use Rattle.std.specs.Prelude.{◌≡◌, length, reverse};
ghost use Rattle.std.specs.Map.{values_of};

use site_types::{BackupId, ImageRecord};
use std::collections::btree_map::Range;
use std::iter::{DoubleEndedIterator, Iterator};
use std::marker::Model;

/// Images of a client, the latest first. Contracts see it as the list of those that are left.
#[derive(Drop)]
pub struct LatestFirst<'a> {
    left: Range<'a, BackupId, ImageRecord>,
}

impl<'a> Model for LatestFirst<'a> {
    ghost use Rattle.std.specs.Prelude.{List, reverse};
    ghost use Rattle.std.specs.Map.{values_of};
    ghost use Rattle.site_types.specs.declared.image.ImageRecord.{ImageRecord};

    ghost Value = { List ImageRecord };

    ghost view = { λ l. reverse (values_of l.left) };
}

impl<'a> LatestFirst<'a> {
    // The images of these entries.
    pub fn new(left: Range<'a, BackupId, ImageRecord>) -> LatestFirst<'a>
        ensures { result ≡ reverse (values_of left.entry) }
    {
        LatestFirst { left }
    }

    /// The same images once more.
    pub fn again(&self) -> LatestFirst<'a>
        ensures { result ≡ self.now }
    {
        let Ok(left) = self.left.clone() else {
            unreachable!()
        };
        LatestFirst { left }
    }
}

impl<'a> Iterator for LatestFirst<'a> {
    type Item = &'a ImageRecord;

    ghost next_gives = { TakesFirst deref };

    ghost remaining = { λ s. at_most (length s) };

    fn next(&mut self) -> Option<&'a ImageRecord> {
        let (_, image) = self.left.next_back()?;
        Some(image)
    }
}
