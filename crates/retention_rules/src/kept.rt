ghost use Rattle.std.specs.Prelude.{◌≡◌};
ghost use Rattle.retention_rules.specs.Cleanup.{with_image, by_age, is_on};

use site_types::{CopyRecord, ImageRecord, Name};
use std::cmp::Ordering;
use std::marker::Model;

// A kept copy, with its image.
#[derive(Debug, Drop)]
pub(crate) struct Kept<'a> {
    pub(crate) image: &'a ImageRecord,
    pub(crate) copy: &'a CopyRecord,
}

impl<'a> Model for Kept<'a> {
    ghost use Rattle.retention_rules.specs.Cleanup.{Kept as KeptValue};

    ghost Value = { KeptValue };

    ghost view = { λ k. record { image = k.image.now; copy = k.copy.now } };
}

impl<'a> Kept<'a> {
    pub(crate) fn new(image: &'a ImageRecord, copy: &'a CopyRecord) -> Kept<'a>
        ensures { result ≡ with_image image.now copy.now }
    {
        Kept { image, copy }
    }

    // The same copy once more.
    pub(crate) fn again(&self) -> Kept<'a>
        ensures { result ≡ self.now }
    {
        Kept::new(self.image, self.copy)
    }

    pub(crate) fn image(&self) -> &'a ImageRecord
        ensures { result.now ≡ self.now.image }
    {
        self.image
    }

    pub(crate) fn copy(&self) -> &'a CopyRecord
        ensures { result.now ≡ self.now.copy }
    {
        self.copy
    }

    pub(crate) fn is_on(&self, unit: &Name) -> bool
        ensures { result ≡ is_on unit.now self.now }
    {
        self.copy.unit == *unit
    }

    // By the image's time, the client and the copy's number.
    pub(crate) fn compare(&self, other: &Kept<'_>) -> Ordering
        ensures { result ≡ by_age self.now other.now }
    {
        self.image
            .id
            .time
            .cmp(&other.image.id.time)
            .then_with(|| self.image.id.client.cmp(&other.image.id.client))
            .then_with(|| self.copy.number.cmp(&other.copy.number))
    }
}
