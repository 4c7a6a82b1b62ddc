use crate::NoMemory;
use site_types::{Copied, Name};
use slp_tree::named::Named;
use std::alloc::Global;

/// A client of the site.
#[derive(Debug, Drop)]
pub struct Client {
    pub name: Name,
    /// The greatest time of its images so far, in seconds since 1970-01-01T00:00:00Z; 0 before the first.
    pub last: u64,
}

impl Copied for Client {
    fn copy(&self, alloc: Global) -> Result<Client, NoMemory> {
        Ok(Client {
            name: self.name.copy(alloc)?,
            last: self.last,
        })
    }
}

impl Named for Client {
    ghost use Rattle.policy_book.specs.Book.{client_name};

    ghost name_of = { client_name };

    fn name(&self) -> &Name {
        &self.name
    }
}
