// Changes of a book.
ghost use Rattle.std.specs.Prelude.{◌≡◌, true, OnOk, OnErr};
ghost use Rattle.policy_book.specs.Refusals.{Applied};
ghost use Rattle.policy_book.specs.Requests.{is_of_book, refusals_of, book_after};
ghost use Rattle.policy_book.specs.Staged.{IsReady, staged_after};

use crate::book::Book;
use crate::units::{change_unit, new_unit};
use crate::{BookFault, Client, NoMemory, Policy, StagedChange};
use site_types::{PolicyType, Request};
use slp_tree::named::{put, remove};
use std::alloc::Global;

impl Book {
    /// Makes a change that was staged for this book. Without memory the book stays.
    pub fn carry_out(&mut self, alloc: Global, change: StagedChange<'_>) -> Result<(), NoMemory>
        requires { IsReady self.old change }
        ensures after { OnOk result (self.new ≡ staged_after change.entry self.old) }
        ensures unchanged { OnErr result (self.new ≡ self.old) }
    {
        match change {
            StagedChange::AddUnit { name, unit } => {
                let added = new_unit(name.copy(alloc)?, self.units.len() as u8, unit);
                put(&mut self.units, added)
            }
            StagedChange::ChangeUnit { at, change, .. } => {
                change_unit(&mut self.units[at], change);
                Ok(())
            }
            StagedChange::AddClient { name } => {
                let client = Client {
                    name: name.copy(alloc)?,
                    last: 0,
                };
                put(&mut self.clients, client)
            }
            StagedChange::RemoveClient { name } => {
                remove(&mut self.clients, name);
                Ok(())
            }
            StagedChange::AddPolicy {
                name,
                kind,
                lifecycle,
            } => {
                let files = matches!(kind, PolicyType::Files);
                let policy = Policy::new(alloc, name.copy(alloc)?, files, lifecycle.copy(alloc)?);
                put(&mut self.policies, policy)
            }
            StagedChange::RemovePolicy { name } => {
                remove(&mut self.policies, name);
                Ok(())
            }
            StagedChange::ChangePolicy { at, change, .. } => {
                self.policies[at].change(alloc, change)?;
                Ok(())
            }
        }
    }

    /// Makes the change that a request asks for. Where something refuses it, the answer is the first reason that holds, and the
    /// book stays.
    pub fn apply(&mut self, alloc: Global, request: &Request) -> Result<(), BookFault>
        requires of_book { is_of_book request.now ≡ true }
        ensures { Applied (refusals_of request.now self.old) (book_after request.now self.old) self.old self.new result }
    {
        let change = self.check(alloc, request)?;
        self.carry_out(alloc, change)?;
        Ok(())
    }
}
