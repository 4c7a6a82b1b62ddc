// How the pools follow a change of the site.
ghost use Rattle.std.specs.Prelude.{◌≡◌, None, IfOk, OnOk, OnErr, true};
ghost use Rattle.site_types.specs.Lines.{IsFormed};
ghost use Rattle.desk_model.specs.Refusals.{first_refusal};
ghost use Rattle.desk_model.specs.Settings.{is_setting, set_by, setting_refusals};
ghost use Rattle.vault_ledger.specs.Ledger.{Ledger, with_outline};
ghost use Rattle.vault_ledger.specs.Storage.{ArePools, Follows, HavePools, pool_added};
ghost use Rattle.vault_ledger.specs.Wellformed.{IsLedger};

use crate::storage::Storage;
use policy_book::{Book, first_unit};
use segment_pool::{NoMemory, Pool, Sha256Print};
use site_types::Request;
use std::alloc::Global;

impl Storage {
    /// Adds the pool of the unit that a request adds, behind the others. A request that adds none needs none. Without memory all
    /// stays as it was.
    pub fn add_pool(
        &mut self,
        alloc: Global,
        book: &Book,
        request: &Request,
    ) -> Result<(), NoMemory>
        requires formed { IsFormed request.now }
        ensures more { (l : Ledger) → Follows l self.old → book.now ≡ l.outline.site.book → is_setting request.now ≡ true → first_refusal (setting_refusals request.now l.outline) ≡ None → OnOk result (HavePools (with_outline l (set_by request.now l.outline)) self.new.pools) }
        ensures have { (l : Ledger) → HavePools l self.old.pools → OnOk result (HavePools l self.new.pools) }
        ensures copies { self.new.copies ≡ self.old.copies }
        ensures unchanged { OnErr result (self.new ≡ self.old) }
    {
        if let Some(pool) = new_pool(alloc, book, request)? {
            self.pools.push(pool)?;
        }
        Ok(())
    }

    /// Gives each pool as many slots as its unit's setting says, and takes away those of no unit. It takes no memory.
    pub fn fit(&mut self, book: &Book)
        requires there { (l : Ledger) × IsLedger l × (l.outline.site.book ≡ book.now) × HavePools l self.old.pools }
        ensures pools { (l : Ledger) → IsLedger l → l.outline.site.book ≡ book.now → HavePools l self.old.pools → ArePools l self.new.pools }
        ensures copies { self.new.copies ≡ self.old.copies }
    {
        let units = book.units();
        self.pools.truncate(units.len());
        for unit in units {
            self.pools[unit.number as usize].set_slots(unit.slots);
        }
    }
}

// The pool of the unit that a request adds. What isn't given is as the first unit has it.
fn new_pool(
    alloc: Global,
    book: &Book,
    request: &Request,
) -> Result<Option<Pool<Sha256Print>>, NoMemory>
    requires formed { IsFormed request.now }
    ensures { IfOk result (λ pool. pool ≡ pool_added request.now book.now) }
{
    match request {
        Request::UnitAdd { segment, slots, .. } => {
            let first = first_unit(alloc)?;
            let file = 2 + book.units().len() as u32;
            let size = segment.unwrap_or(first.segment);
            let slots = slots.unwrap_or(first.slots);
            Ok(Some(Pool::new(alloc, file, size, slots, Sha256Print)?))
        }
        _ => Ok(None),
    }
}
