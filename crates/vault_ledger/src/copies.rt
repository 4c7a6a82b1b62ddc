// The copies of images.
ghost use Rattle.std.specs.Prelude.{◌≡◌, true, is_some, None, Some, OnOk, OnErr};
ghost use Rattle.std.specs.Option.{option_copied};
ghost use Rattle.site_types.specs.declared.id.BackupId.{BackupId as Id};
ghost use Rattle.vault_ledger.specs.Copies.{copy_of, Sets};

use copy_fragments::CopyMap;
use site_types::{BackupId, NoMemory};
use std::alloc::Global;
use std::collections::BTreeMap;
use std::marker::Model;

/// The copies of images, by the images' ids.
#[derive(Drop)]
pub struct Copies {
    copies: BTreeMap<BackupId, CopyMap>,
}

impl Model for Copies {
    ghost use Rattle.std.specs.Prelude.{List};
    ghost use Rattle.copy_fragments.specs.Copies.{Copy};
    ghost use Rattle.site_types.specs.declared.id.BackupId.{BackupId as Id};

    ghost Value = { List (Id × Copy) };

    ghost view = { λ c. c.copies.entries };
}

impl Copies {
    /// No copies.
    pub fn new(alloc: Global) -> Copies
        ensures { (id : Id) → copy_of id result ≡ None }
    {
        Copies {
            copies: BTreeMap::new(alloc),
        }
    }

    /// The copy of the image with this id.
    pub fn find(&self, id: &BackupId) -> Option<&CopyMap>
        ensures { option_copied result ≡ copy_of id.now self.now }
    {
        self.copies.get(id)
    }

    /// Adds a copy, or leaves the copies as they were.
    pub fn add(&mut self, id: BackupId, copy: CopyMap) -> Result<(), NoMemory>
        ensures added { OnOk result (Sets id (Some copy) self.old self.new) }
        ensures unchanged { OnErr result (self.new ≡ self.old) }
    {
        self.copies.insert(id, copy)?;
        Ok(())
    }

    /// Puts a copy in the place of the one that is there. It takes no memory.
    pub fn fill(&mut self, id: &BackupId, copy: CopyMap)
        requires there { is_some (copy_of id.now self.old) ≡ true }
        ensures { Sets id.now (Some copy) self.old self.new }
    {
        let Some(place) = self.copies.get_mut(id) else {
            unreachable!()
        };
        *place = copy;
    }

    /// Takes the copy of an image out.
    pub fn remove(&mut self, id: &BackupId)
        ensures { Sets id.now None self.old self.new }
    {
        let _ = self.copies.remove(id);
    }
}
