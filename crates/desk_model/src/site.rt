ghost use Rattle.std.specs.Prelude.{◌≡◌, codes, IfOk};
ghost use Rattle.schedule_windows.specs.Zones.{PosixRule};
ghost use Rattle.desk_model.specs.Site.{initial_site};

use policy_book::Book;
use schedule_windows::Zone;
use site_types::{Copied, NoMemory};
use std::alloc::Global;

/// A site: its book, and the zone on whose clock its windows open.
#[derive(Debug, Drop)]
pub struct Site {
    pub book: Book,
    pub zone: Zone,
}

impl Site {
    /// The site of a new vault.
    pub fn new(alloc: Global) -> Result<Site, NoMemory>
        ensures { IfOk result (λ site. site ≡ initial_site) }
    {
        Ok(Site {
            book: Book::new(alloc)?,
            zone: first_zone(alloc)?,
        })
    }
}

fn first_zone(alloc: Global) -> Result<Zone, NoMemory>
    ensures { IfOk result (λ zone. zone ≡ PosixRule (codes "UTC0")) }
{
    match Zone::rule(alloc, "UTC0")? {
        Some(zone) => Ok(zone),
        None => unreachable!(),
    }
}

impl Copied for Site {
    fn copy(&self, alloc: Global) -> Result<Site, NoMemory> {
        Ok(Site {
            book: self.book.copy(alloc)?,
            zone: self.zone.copy(alloc)?,
        })
    }
}
