ghost use Rattle.std.specs.Prelude.{◌≡◌, IfOk};
ghost use Rattle.std.specs.Option.{option_copied};
ghost use Rattle.policy_book.specs.Lists.{named};
ghost use Rattle.policy_book.specs.Book.{BookOrdered, client_name, policy_name, unit_name};

use crate::NoMemory;
use crate::client::Client;
use crate::policy::Policy;
use site_types::{Copied, Name, Unit, copy_all};
use slp_tree::Lifecycles;
use slp_tree::named::find;
use std::alloc::Global;
use std::marker::Model;

/// The units, clients, lifecycles and policies of a site, each by name.
#[derive(Debug, Drop)]
pub struct Book {
    pub(crate) units: Vec<Unit>,
    pub(crate) clients: Vec<Client>,
    pub(crate) lifecycles: Lifecycles,
    pub(crate) policies: Vec<Policy>,
}

impl Model for Book {
    ghost use Rattle.policy_book.specs.Book.{Book as BookValue, BookOrdered};

    ghost Value = { BookValue };

    ghost view = { λ b. record { units = b.units.items; clients = b.clients.items; lifecycles = b.lifecycles; policies = b.policies.items } };

    ghost invariant = { λ b. BookOrdered (record { units = b.units.items; clients = b.clients.items; lifecycles = b.lifecycles; policies = b.policies.items }) };
}

impl Book {
    /// An equal book.
    pub fn copy(&self, alloc: Global) -> Result<Book, NoMemory>
        ensures { IfOk result (λ copy. copy ≡ self.now) }
    {
        Ok(Book {
            units: copy_all(alloc, &self.units)?,
            clients: copy_all(alloc, &self.clients)?,
            lifecycles: self.lifecycles.copy(alloc)?,
            policies: copy_all(alloc, &self.policies)?,
        })
    }

    /// The units, by name.
    pub fn units(&self) -> &[Unit]
        ensures units { result.now ≡ self.now.units }
        ensures ordered { BookOrdered self.now }
    {
        &self.units
    }

    /// The clients, by name.
    pub fn clients(&self) -> &[Client]
        ensures { result.now ≡ self.now.clients }
    {
        &self.clients
    }

    /// The lifecycles, by name.
    pub fn lifecycles(&self) -> &Lifecycles
        ensures { result.now ≡ self.now.lifecycles }
    {
        &self.lifecycles
    }

    /// The policies, by name.
    pub fn policies(&self) -> &[Policy]
        ensures { result.now ≡ self.now.policies }
    {
        &self.policies
    }

    /// The unit of this name, and None exactly where there is none.
    pub fn unit(&self, name: &Name) -> Option<&Unit>
        ensures { option_copied result ≡ named unit_name name.now self.now.units }
    {
        find(&self.units, name)
    }

    /// The client of this name, and None exactly where there is none.
    pub fn client(&self, name: &Name) -> Option<&Client>
        ensures { option_copied result ≡ named client_name name.now self.now.clients }
    {
        find(&self.clients, name)
    }

    /// The policy of this name, and None exactly where there is none.
    pub fn policy(&self, name: &Name) -> Option<&Policy>
        ensures { option_copied result ≡ named policy_name name.now self.now.policies }
    {
        find(&self.policies, name)
    }
}
