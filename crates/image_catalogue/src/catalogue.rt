ghost use Rattle.std.specs.Prelude.{◌≡◌, ◌+◌, ℕ, List, [], length, None, IfOk, OnOk, OnErr};
ghost use Rattle.std.specs.Option.{option_copied};
ghost use Rattle.site_types.specs.declared.image.ImageRecord.{ImageRecord as Record};
ghost use Rattle.image_catalogue.specs.Images.{AreById, bytes_on, first_of_client, first_under, record_named, latest_first, used, with_record, without_record};

use crate::NoMemory;
use crate::latest_first::LatestFirst;
use crate::unit_bytes::{UnitBytes, bytes_of, counted, uncount};
use site_types::{BackupId, ImageRecord, Name};
use std::alloc::Global;
use std::collections::BTreeMap;
use std::collections::btree_map::Values;
use std::marker::Model;
use std::ops::Bound;

// An image of any client is added to an ordered map without moving the others, so an opening of a million images, which adds
// them one by one, isn't quadratic. The key is a copy of the image's id, and each record stays whole, so contracts still see
// the list of the images.

/// The images of a vault, by client and then by time, and the bytes that their kept copies have on each unit. Contracts see it
/// as the list of its images.
#[derive(Debug, Drop)]
pub struct Catalogue {
    images: BTreeMap<BackupId, ImageRecord>,
    used: Vec<UnitBytes>,
}

impl Model for Catalogue {
    ghost use Rattle.std.specs.Prelude.{List};
    ghost use Rattle.site_types.specs.declared.image.ImageRecord.{ImageRecord};

    ghost Value = { List ImageRecord };

    ghost use Rattle.std.specs.BTreeMap.{values};
    ghost use Rattle.image_catalogue.specs.Counts.{Counts};
    ghost use Rattle.image_catalogue.specs.Entries.{KeysAreIds};

    ghost view = { λ c. values c.images };

    ghost invariant = { λ c. KeysAreIds c.images.entries × Counts c.used.items (values c.images) };
}

impl Catalogue {
    /// A catalogue of no images.
    pub fn new(alloc: Global) -> Catalogue
        ensures { result ≡ [] }
    {
        Catalogue {
            images: BTreeMap::new(alloc),
            used: Vec::new(alloc),
        }
    }

    /// The images, by client and then by time.
    pub fn iter(&self) -> Values<'_, BackupId, ImageRecord>
        ensures rest { result ≡ self.now }
        ensures by_id { AreById self.now }
    {
        self.images.values()
    }

    /// How many images there are.
    pub fn count(&self) -> u64
        ensures { result ≡ length self.now }
    {
        self.images.len() as u64
    }

    /// The image of this id, and None exactly where there is none.
    pub fn find(&self, id: &BackupId) -> Option<&ImageRecord>
        ensures { option_copied result ≡ record_named id.now self.now }
    {
        self.images.get(id)
    }

    /// The bytes that the kept copies of all images have on a unit, before equal segments are stored once.
    pub fn used(&self, unit: &Name) -> u64
        ensures { result ≡ used unit.now self.now }
    {
        bytes_of(&self.used, unit)
    }

    /// The earliest image of a client, and None exactly where it has none.
    pub fn first_of_client(&self, client: &Name) -> Option<&ImageRecord>
        ensures { option_copied result ≡ first_of_client client.now self.now }
    {
        self.images
            .values()
            .find(|image| image.id.client == *client)
    }

    /// The images of a client that were made at a moment or before it, the latest first. Images of other clients aren't looked at.
    pub fn latest_first(
        &self,
        alloc: Global,
        client: &Name,
        moment: u64,
    ) -> Result<LatestFirst<'_>, NoMemory>
        ensures { IfOk result (λ l. l ≡ latest_first client.now moment self.now) }
    {
        let first = BackupId {
            client: client.copy(alloc)?,
            time: 0,
        };
        let last = BackupId {
            client: client.copy(alloc)?,
            time: moment,
        };
        let range = (Bound::Included(&first), Bound::Included(&last));
        Ok(LatestFirst::new(self.images.range(range)))
    }

    /// The first image that was made under a policy, and None exactly where there is none.
    pub fn first_under(&self, policy: &Name) -> Option<&ImageRecord>
        ensures { option_copied result ≡ first_under policy.now self.now }
    {
        self.images.values().find(|image| image.policy == *policy)
    }

    /// Adds an image whose id is new. Without memory the catalogue stays, and so it does where the bytes on a unit would pass
    /// the end of `u64`, which no disk has.
    pub fn add_image(&mut self, alloc: Global, image: ImageRecord) -> Result<(), NoMemory>
        requires { record_named image.id self.old ≡ None }
        ensures added { OnOk result (self.new ≡ with_record image self.old) }
        ensures unchanged { OnErr result (self.new ≡ self.old) }
        ensures length_added { OnOk result (length self.new ≡ 1 + length self.old) }
        ensures used_added { (unit : List ℕ)
            → OnOk result (used unit self.new ≡ bytes_on unit image.length image.copies + used unit self.old) }
    {
        let used = counted(alloc, &self.used, &image)?;
        let id = image.id.copy(alloc)?;
        self.images.insert(id, image)?;
        self.used = used;
        Ok(())
    }

    /// Removes the image of this id, where there is one. It takes no memory.
    pub fn remove_image(&mut self, id: &BackupId)
        ensures removed { self.new ≡ without_record id.now self.old }
        ensures undone { (image : Record) (images : List Record)
            → record_named image.id images ≡ None
            → self.old ≡ with_record image images
            → id.now ≡ image.id
            → self.new ≡ images }
    {
        if let Some(image) = self.images.remove(id) {
            uncount(&mut self.used, &image);
        }
    }
}
