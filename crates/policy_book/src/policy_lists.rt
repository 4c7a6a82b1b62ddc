// What a policy lists: its clients, the paths that it selects, and its schedules.
ghost use Rattle.std.specs.Prelude.{◌&&◌, [], ◌∷◌, not, IfOk};
ghost use Rattle.std.specs.List.{list_any};
ghost use Rattle.std.specs.Str.{bytes_eq};
ghost use Rattle.slp_tree.specs.Places.{StandsAt};
ghost use Rattle.site_types.specs.Paths.{written};
ghost use Rattle.policy_book.specs.Book.{policy_name};
ghost use Rattle.policy_book.specs.Changes.{client_list_refusals, client_unlist_refusals, is_full, schedule_add_refusals, schedule_change_refusals, schedule_remove_refusals, select_refusals, unselect_refusals};
ghost use Rattle.policy_book.specs.Refusals.{Allows};
ghost use Rattle.policy_book.specs.declared.fault.BookFault.TheVariants.{Exists, Rule, Unknown};

use crate::book::Book;
use crate::refusals::{check_listed, check_room, check_unlisted, known_place};
use crate::{BookFault, Policy};
use site_types::{Kind, Name, Text, written_path};
use std::alloc::Global;

const LISTED_LIMIT: usize = 1024;

const SELECTION_LIMIT: usize = 64;

const SCHEDULE_LIMIT: usize = 32;

impl Book {
    // Where the policy stands.
    pub(crate) fn check_list(
        &self,
        alloc: Global,
        policy: &Name,
        client: &Name,
    ) -> Result<usize, BookFault>
        ensures allows { Allows (client_list_refusals policy.now client.now self.now) result }
        ensures place { IfOk result (λ at. StandsAt policy_name self.now.policies policy.now at) }
    {
        let at = self.policy_place(alloc, policy)?;
        let listed = self.policies[at].clients();
        check_room(alloc, b"policy-clients", listed.len(), LISTED_LIMIT)?;
        known_place(alloc, &self.clients, client)?;
        check_unlisted(alloc, listed, policy, client)?;
        Ok(at)
    }

    // Where the policy stands.
    pub(crate) fn check_unlist(
        &self,
        alloc: Global,
        policy: &Name,
        client: &Name,
    ) -> Result<usize, BookFault>
        ensures allows { Allows (client_unlist_refusals policy.now client.now self.now) result }
        ensures place { IfOk result (λ at. StandsAt policy_name self.now.policies policy.now at) }
    {
        let at = self.policy_place(alloc, policy)?;
        check_listed(alloc, self.policies[at].clients(), policy, client)?;
        Ok(at)
    }

    // Where the policy stands.
    pub(crate) fn check_select(
        &self,
        alloc: Global,
        policy: &Name,
        path: &Text,
    ) -> Result<usize, BookFault>
        ensures allows { Allows (select_refusals policy.now path.now self.now) result }
        ensures place { IfOk result (λ at. StandsAt policy_name self.now.policies policy.now at) }
    {
        let at = self.policy_place(alloc, policy)?;
        let found = &self.policies[at];
        check_room(
            alloc,
            b"selections",
            found.selections().len(),
            SELECTION_LIMIT,
        )?;
        check_unselected(alloc, found, path)?;
        Ok(at)
    }

    // Where the policy stands.
    pub(crate) fn check_unselect(
        &self,
        alloc: Global,
        policy: &Name,
        path: &Text,
    ) -> Result<usize, BookFault>
        ensures allows { Allows (unselect_refusals policy.now path.now self.now) result }
        ensures place { IfOk result (λ at. StandsAt policy_name self.now.policies policy.now at) }
    {
        let at = self.policy_place(alloc, policy)?;
        check_selected(alloc, &self.policies[at], path)?;
        Ok(at)
    }

    // Where the policy stands.
    pub(crate) fn check_schedule_add(
        &self,
        alloc: Global,
        policy: &Name,
        schedule: &Name,
        kind: Kind,
    ) -> Result<usize, BookFault>
        ensures allows { Allows (schedule_add_refusals policy.now schedule.now kind self.now) result }
        ensures place { IfOk result (λ at. StandsAt policy_name self.now.policies policy.now at) }
    {
        let at = self.policy_place(alloc, policy)?;
        let found = &self.policies[at];
        let schedules = found.schedules();
        check_room(alloc, b"schedules", schedules.len(), SCHEDULE_LIMIT)?;
        check_unlisted(alloc, schedules, policy, schedule)?;
        check_rule_8(found, kind)?;
        Ok(at)
    }

    // Where the policy stands.
    pub(crate) fn check_schedule_change(
        &self,
        alloc: Global,
        policy: &Name,
        schedule: &Name,
        kind: Kind,
    ) -> Result<usize, BookFault>
        ensures allows { Allows (schedule_change_refusals policy.now schedule.now kind self.now) result }
        ensures place { IfOk result (λ at. StandsAt policy_name self.now.policies policy.now at) }
    {
        let at = self.policy_place(alloc, policy)?;
        let found = &self.policies[at];
        check_listed(alloc, found.schedules(), policy, schedule)?;
        check_rule_8(found, kind)?;
        Ok(at)
    }

    // Where the policy stands.
    pub(crate) fn check_schedule_remove(
        &self,
        alloc: Global,
        policy: &Name,
        schedule: &Name,
    ) -> Result<usize, BookFault>
        ensures allows { Allows (schedule_remove_refusals policy.now schedule.now self.now) result }
        ensures place { IfOk result (λ at. StandsAt policy_name self.now.policies policy.now at) }
    {
        let at = self.policy_place(alloc, policy)?;
        check_listed(alloc, self.policies[at].schedules(), policy, schedule)?;
        Ok(at)
    }
}

// The policy hasn't selected the path.
fn check_unselected(alloc: Global, policy: &Policy, path: &Text) -> Result<(), BookFault>
    ensures { Allows ((list_any (λ s. bytes_eq s path.now) policy.now.selections, Exists (written path.now)) ∷ []) result }
{
    if policy.selects(path) {
        return Err(BookFault::Exists(written_path(alloc, path)?));
    }
    Ok(())
}

// The policy has selected the path.
fn check_selected(alloc: Global, policy: &Policy, path: &Text) -> Result<(), BookFault>
    ensures { Allows ((not (list_any (λ s. bytes_eq s path.now) policy.now.selections), Unknown (written path.now)) ∷ []) result }
{
    if !policy.selects(path) {
        return Err(BookFault::Unknown(written_path(alloc, path)?));
    }
    Ok(())
}

// A policy that takes bytes as they come takes full backups alone.
fn check_rule_8(policy: &Policy, kind: Kind) -> Result<(), BookFault>
    ensures { Allows ((not policy.now.files && not (is_full kind), Rule 8) ∷ []) result }
{
    if !policy.files() && !matches!(kind, Kind::Full) {
        return Err(BookFault::Rule(8));
    }
    Ok(())
}
