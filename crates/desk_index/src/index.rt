// The desk's index of its journal: the site, the catalogue, and where the bytes of the images stand.
ghost use Rattle.std.specs.Prelude.{◌≡◌, None, OnOk, OnErr};
ghost use Rattle.policy_book.specs.Changes.{client_sealed};
ghost use Rattle.image_catalogue.specs.Images.{record_named, with_record};
ghost use Rattle.desk_rules.specs.SiteChanges.{CanBeMade, site_made};

use desk_model::Site;
use desk_rules::{Change, Decision, SiteChange, decide};
use image_catalogue::Catalogue;
use policy_book::Book;
use site_types::{Answer, BackupId, ImageRecord, NoMemory, Request};
use std::alloc::Global;
use vault_ledger::Storage;

/// The site, the catalogue, and the pools of the units with the copies of the images.
#[derive(Drop)]
pub struct Index {
    pub site: Site,
    pub catalogue: Catalogue,
    pub storage: Storage,
}

impl Index {
    ghost use Rattle.std.specs.Prelude.{true, IfOk};
    ghost use Rattle.site_types.specs.Lines.{IsFormed};
    ghost use Rattle.site_types.specs.declared.image.ImageRecord.{ImageRecord as Record};
    ghost use Rattle.policy_book.specs.Changes.{client_unsealed, last_known};
    ghost use Rattle.image_catalogue.specs.Images.{without_record};
    ghost use Rattle.desk_model.specs.Settings.{is_setting};
    ghost use Rattle.vault_ledger.specs.Ledger.{Ledger};
    ghost use Rattle.desk_index.specs.Index.{IsIndexOf, IsSet, SameLists};
    ghost use Rattle.desk_index.specs.declared.index.Index.{Index as Value};

    /// Carries out a request that changes the site, or answers why it is refused. A refusal leaves all as it was. Without memory
    /// the index is that of the same ledger, with the same site and catalogue.
    pub fn set(&mut self, alloc: Global, request: &Request) -> Result<Option<Answer>, NoMemory>
        requires setting { is_setting request.now ≡ true }
        requires formed { IsFormed request.now }
        requires known { (l : Ledger) × IsIndexOf l self.old }
        ensures set { (l : Ledger) → IsIndexOf l self.old → IfOk result (IsSet l request.now self.old self.new) }
        ensures kept { (l : Ledger) → IsIndexOf l self.old → OnErr result (IsIndexOf l self.new) }
        ensures catalogue { self.new.catalogue ≡ self.old.catalogue }
        ensures copies { self.new.storage.copies ≡ self.old.storage.copies }
        ensures unchanged { OnErr result (SameLists self.old self.new) }
    {
        let decision = decide(alloc, &self.site, &self.catalogue, request, 0, 0)?;
        let Decision { answer, change } = decision;
        let Change::Settings { change } = change else {
            return Ok(Some(answer));
        };
        self.storage.add_pool(alloc, &self.site.book, request)?;
        let made = carry_out(alloc, &mut self.site, change);
        self.storage.fit(&self.site.book);
        made?;
        Ok(None)
    }

    /// Adds an image to the catalogue and notes its time with its client, or does neither.
    pub fn admit(&mut self, alloc: Global, image: ImageRecord) -> Result<(), NoMemory>
        requires new { record_named image.id self.old.catalogue ≡ None }
        ensures site { OnOk result (self.new.site ≡ record self.old.site { book = client_sealed image.id.client image.id.time self.old.site.book }) }
        ensures catalogue { OnOk result (self.new.catalogue ≡ with_record image self.old.catalogue) }
        ensures storage { self.new.storage ≡ self.old.storage }
        ensures unchanged { OnErr result (self.new ≡ self.old) }
    {
        let id = image.id.copy(alloc)?;
        add_image(alloc, &mut self.site.book, &mut self.catalogue, image, &id)
    }

    /// Takes back an image that was admitted, with what was known of its client's time before. It takes no memory.
    pub fn expel(&mut self, id: &BackupId, last: Option<u64>)
        ensures site { self.new.site ≡ record self.old.site { book = client_unsealed id.now.client last self.old.site.book } }
        ensures catalogue { self.new.catalogue ≡ without_record id.now self.old.catalogue }
        ensures storage { self.new.storage ≡ self.old.storage }
        ensures back { (before : Value) (image : Record)
            → id.now ≡ image.id
            → record_named image.id before.catalogue ≡ None
            → self.old.site ≡ record before.site { book = client_sealed image.id.client image.id.time before.site.book }
            → self.old.catalogue ≡ with_record image before.catalogue
            → last ≡ last_known image.id.client before.site.book
            → (self.new.site ≡ before.site) × (self.new.catalogue ≡ before.catalogue) }
    {
        self.catalogue.remove_image(id);
        self.site.book.unseal_client(&id.client, last);
    }
}

// Adds an image to the catalogue and notes its time with its client, or does neither.
fn add_image(
    alloc: Global,
    book: &mut Book,
    catalogue: &mut Catalogue,
    image: ImageRecord,
    id: &BackupId,
) -> Result<(), NoMemory>
    requires named { id.now ≡ image.id }
    requires new { record_named image.id catalogue.old ≡ None }
    ensures book { OnOk result (book.new ≡ client_sealed image.id.client image.id.time book.old) }
    ensures catalogue { OnOk result (catalogue.new ≡ with_record image catalogue.old) }
    ensures unchanged { OnErr result ((book.new ≡ book.old) × (catalogue.new ≡ catalogue.old)) }
{
    catalogue.add_image(alloc, image)?;
    let sealed = book.seal_client(alloc, &id.client, id.time);
    if sealed.is_err() {
        catalogue.remove_image(id);
    }
    sealed
}

fn carry_out(alloc: Global, site: &mut Site, change: SiteChange<'_>) -> Result<(), NoMemory>
    requires { CanBeMade site.old change }
    ensures made { OnOk result (site.new ≡ site_made change.entry site.old) }
    ensures unchanged { OnErr result (site.new ≡ site.old) }
{
    match change {
        SiteChange::Book(staged) => site.book.carry_out(alloc, staged),
        SiteChange::Zone(zone) => {
            site.zone = zone;
            Ok(())
        }
    }
}
