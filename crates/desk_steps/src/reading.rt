// The bytes of an image, read from its copy.
ghost use Rattle.std.specs.Prelude.{◌≡◌, ◌++◌, ℕ, List, [], ◌∷◌, map, true, Contains, IfErr, IfOk, OnOk};
ghost use Rattle.site_types.specs.declared.id.BackupId.{BackupId as Id};
ghost use Rattle.site_types.specs.declared.image.CopyRecord.{CopyRecord};
ghost use Rattle.vault_disk.specs.Disk.{IsSame};
ghost use Rattle.vault_disk.specs.Steps.{LookedAround, Rose};
ghost use Rattle.desk_model.specs.State.{Image, has_image};
ghost use Rattle.desk_model.specs.Backups.{unit_at};
ghost use Rattle.vault_ledger.specs.Ledger.{Ledger, are_true};
ghost use Rattle.vault_ledger.specs.Storage.{ReadingFails};
ghost use Rattle.desk_index.specs.Index.{IsIndexOf};
ghost use Rattle.desk_index.specs.declared.index.Index.{Index as Known};
ghost use Rattle.desk_steps.specs.Readings.{IsImageOf, IsUndamaged, IsWholeImage, bytes_over};
ghost use Rattle.desk_steps.specs.Asked.{ReadsFail};

use copy_fragments::CopyFault;
use desk_index::Index;
use image_catalogue::Catalogue;
use policy_book::Book;
use site_types::{BackupId, NoMemory, Text, Unit};
use std::alloc::Global;
use vault_disk::Vault;

// The unit of an image's copy.
fn unit_of_copy<'a>(book: &'a Book, catalogue: &Catalogue, id: &BackupId) -> &'a Unit
    requires there { (l : Ledger) × (index : Known) × IsIndexOf l index × (index.site.book ≡ book.now) × (index.catalogue ≡ catalogue.now) × (has_image id.now l.outline.images ≡ true) }
    ensures { (l : Ledger) (index : Known) (image : Image) (copy : CopyRecord) → IsIndexOf l index → index.site.book ≡ book.now → index.catalogue ≡ catalogue.now → IsImageOf l id.now image copy → result.now ≡ unit_at copy.unit l.outline.site.book }
{
    let Some(image) = catalogue.find(id) else {
        unreachable!()
    };
    let Some(unit) = book.unit(&image.copies.as_slice()[0].unit) else {
        unreachable!()
    };
    unit
}

/// The bytes of an image that the catalogue has, read from its copy. Damaged comes only where the bytes of a piece are fewer than
/// recorded or have another digest.
pub fn read_image<V: Vault>(
    alloc: Global,
    index: &mut Index,
    vault: &mut V,
    id: &BackupId,
) -> Result<Text, CopyFault>
    requires there { (l : Ledger) × IsIndexOf l index.old × (has_image id.now l.outline.images ≡ true) }
    ensures bytes { (l : Ledger) → IsIndexOf l index.old → has_image id.now l.outline.images ≡ true → (V.disk vault.old).tells → IfOk result (λ bytes. bytes ≡ bytes_over (V.disk vault.old).seen l id.now) }
    ensures whole { (l : Ledger) → IsIndexOf l index.old → (V.disk vault.old).tells → OnOk result (IsWholeImage (V.disk vault.old).seen l id.now) }
    ensures fails { (l : Ledger) (image : Image) (copy : CopyRecord) → IsIndexOf l index.old → IsImageOf l id.now image copy → (V.disk vault.old).tells → IfErr result (ReadingFails (V.disk vault.old).seen l image.entry copy) }
    ensures cause { IfErr result (λ fault. fault ≡ CopyFault.DiskFault → Rose (V.disk vault.old).faults (V.disk vault.new).faults) }
    ensures memory { IfErr result (λ fault. fault ≡ CopyFault.NoMemory → vault.new ≡ vault.old) }
    ensures index { index.new ≡ index.old }
    ensures looked { (V.disk vault.old).tells → LookedAround (V.disk vault.old) (V.disk vault.new) }
    ensures same { IsSame (V.disk vault.old) (V.disk vault.new) }
{
    let unit = unit_of_copy(&index.site.book, &index.catalogue, id);
    let bytes = index.storage.read_copy(alloc, vault, unit, id)?;
    Ok(Text::from_vec(bytes))
}

/// The bytes of images that the catalogue has. Each is read once.
pub fn read_images<V: Vault>(
    alloc: Global,
    index: &mut Index,
    vault: &mut V,
    ids: &[BackupId],
) -> Result<Vec<Text>, CopyFault>
    requires there { (l : Ledger) × IsIndexOf l index.old × ((id : Id) → Contains ids.now id → has_image id l.outline.images ≡ true) }
    ensures bytes { (l : Ledger) → IsIndexOf l index.old → ((id : Id) → Contains ids.now id → has_image id l.outline.images ≡ true) → (V.disk vault.old).tells → IfOk result (λ read. read.items ≡ map (bytes_over (V.disk vault.old).seen l) ids.now) }
    ensures whole { (l : Ledger) → IsIndexOf l index.old → (V.disk vault.old).tells → OnOk result ((id : Id) → Contains ids.now id → IsWholeImage (V.disk vault.old).seen l id) }
    ensures fails { (l : Ledger) → IsIndexOf l index.old → ((id : Id) → Contains ids.now id → has_image id l.outline.images ≡ true) → (V.disk vault.old).tells → IfErr result (ReadsFail (V.disk vault.old).seen l ids.now) }
    ensures undamaged { (l : Ledger) → IsIndexOf l index.old → ((id : Id) → Contains ids.now id → has_image id l.outline.images ≡ true) → (V.disk vault.old).tells → are_true (V.disk vault.old).seen l l.outline.stored ≡ true → IfErr result IsUndamaged }
    ensures cause { IfErr result (λ fault. fault ≡ CopyFault.DiskFault → Rose (V.disk vault.old).faults (V.disk vault.new).faults) }
    ensures index { index.new ≡ index.old }
    ensures looked { (V.disk vault.old).tells → LookedAround (V.disk vault.old) (V.disk vault.new) }
    ensures same { IsSame (V.disk vault.old) (V.disk vault.new) }
{
    let mut images = Vec::new(alloc);
    for id in ids {
        let bytes = read_image(alloc, index, vault, id)?;
        add(&mut images, bytes)?;
    }
    Ok(images)
}

fn add(images: &mut Vec<Text>, bytes: Text) -> Result<(), NoMemory>
    ensures { OnOk result (images.new.items ≡ images.old.items ++ bytes ∷ []) }
{
    images.push(bytes)?;
    Ok(())
}
