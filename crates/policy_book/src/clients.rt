// The clients of a book.
ghost use Rattle.std.specs.Prelude.{◌≡◌, ℕ, true, ◌++◌, codes, IfOk, IsOk, OnOk, OnErr};
ghost use Rattle.std.specs.Option.{option_copied};
ghost use Rattle.policy_book.specs.Lists.{AreByName, changed, has};
ghost use Rattle.policy_book.specs.Book.{Book as BookValue, client_name};
ghost use Rattle.policy_book.specs.Changes.{client_add_refusals, client_remove_refusals, client_sealed, client_unsealed, last_known, last_of, last_raised, lister, with_last};
ghost use Rattle.policy_book.specs.Refusals.{Allows};

use crate::book::Book;
use crate::refusals::{check_new, check_room, known_place};
use crate::{BookFault, Client, NoMemory, Policy};
use site_types::{Name, Text};
use slp_tree::named::{place, put, remove};
use std::alloc::Global;

/// How many clients there may be.
pub const CLIENT_LIMIT: usize = 1024;

impl Book {
    pub(crate) fn check_client_add(&self, alloc: Global, name: &Name) -> Result<(), BookFault>
        ensures { Allows (client_add_refusals name.now self.now) result }
    {
        check_room(alloc, b"clients", self.clients.len(), CLIENT_LIMIT)?;
        check_new(alloc, &self.clients, name)
    }

    pub(crate) fn check_client_remove(&self, alloc: Global, name: &Name) -> Result<(), BookFault>
        ensures { Allows (client_remove_refusals name.now self.now) result }
    {
        known_place(alloc, &self.clients, name)?;
        if let Some(policy) = lister(name, &self.policies) {
            return Err(BookFault::InUse {
                name: Text::new(alloc, name.bytes())?,
                user: policy_text(alloc, policy.name())?,
            });
        }
        Ok(())
    }

    /// The greatest time of a client's images so far, in seconds since 1970-01-01T00:00:00Z; 0 where no client has this name.
    pub fn last_of(&self, client: &Name) -> u64
        ensures { result ≡ last_of client.now self.now }
    {
        match self.client(client) {
            Some(found) => found.last,
            None => 0,
        }
    }

    /// The greatest time of a client's images so far, in seconds since 1970-01-01T00:00:00Z, and None exactly where no client has
    /// this name.
    pub fn last_known(&self, client: &Name) -> Option<u64>
        ensures { result ≡ last_known client.now self.now }
    {
        self.client(client).map(|found| found.last)
    }

    /// Notes an image of a client with this time, in seconds since 1970-01-01T00:00:00Z: raises the client's greatest time to it,
    /// and adds the client where it isn't there. It takes memory only for a client that isn't there.
    pub fn seal_client(&mut self, alloc: Global, client: &Name, time: u64) -> Result<(), NoMemory>
        ensures sealed { OnOk result (self.new ≡ client_sealed client.now time self.old) }
        ensures unchanged { OnErr result (self.new ≡ self.old) }
        ensures there { has client_name client.now self.old.clients ≡ true → IsOk result }
    {
        match place(&self.clients, client) {
            Ok(at) => {
                let found = &mut self.clients[at];
                found.last = found.last.max(time);
            }
            Err(_) => {
                let sealed = Client {
                    name: client.copy(alloc)?,
                    last: time,
                };
                put(&mut self.clients, sealed)?;
            }
        }
        Ok(())
    }

    /// Takes back what `seal_client` noted, with what `last_known` was before it: None removes the client, and a time is its greatest
    /// time again. It takes no memory.
    pub fn unseal_client(&mut self, client: &Name, last: Option<u64>)
        ensures unsealed { self.new ≡ client_unsealed client.now last self.old }
        ensures back { (before : BookValue) (time : ℕ) → self.old ≡ client_sealed client.now time before → last ≡ last_known client.now before → self.new ≡ before }
    {
        match last {
            None => remove(&mut self.clients, client),
            Some(time) => set_last(&mut self.clients, client, time),
        }
    }

    /// Raises the greatest time of a client's images to this one, in seconds since 1970-01-01T00:00:00Z, where it is lower.
    pub fn raise_last(&mut self, client: &Name, time: u64)
        requires { has client_name client.now self.old.clients ≡ true }
        ensures { self.new ≡ last_raised client.now time self.old }
    {
        if let Ok(at) = place(&self.clients, client) {
            let found = &mut self.clients[at];
            found.last = found.last.max(time);
        }
    }
}

fn set_last(clients: &mut Vec<Client>, client: &Name, time: u64)
    requires { AreByName client_name clients.old.items }
    ensures set { clients.new.items ≡ changed client_name client.now (with_last time) clients.old.items }
    ensures by_name { AreByName client_name clients.new.items }
{
    if let Ok(at) = place(clients, client) {
        clients[at].last = time;
    }
}

// The first policy that lists a client.
fn lister<'a>(name: &Name, policies: &'a [Policy]) -> Option<&'a Policy>
    ensures { option_copied result ≡ lister name.now policies.now }
{
    policies.iter().find(|policy| policy.lists(name))
}

fn policy_text(alloc: Global, policy: &Name) -> Result<Text, NoMemory>
    ensures { IfOk result (λ text. text ≡ codes "policy " ++ policy.now) }
{
    let mut text = b"policy ".to_vec(alloc)?;
    text.extend_from_slice(policy.bytes())?;
    Ok(Text::from_vec(text))
}
