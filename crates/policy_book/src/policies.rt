// The policies of a book.
ghost use Rattle.std.specs.Prelude.{◌≡◌, [], ◌∷◌, IfOk, Some, slice_index_or};
ghost use Rattle.std.specs.Option.{option_copied};
ghost use Rattle.policy_book.specs.Lists.{named};
ghost use Rattle.slp_tree.specs.Places.{StandsAt};
ghost use Rattle.policy_book.specs.Book.{Policy as PolicyValue, policy_name};
ghost use Rattle.policy_book.specs.Changes.{policy_add_refusals, policy_change_refusals, policy_remove_refusals, has_lifecycle, lacks_policy};
ghost use Rattle.policy_book.specs.Refusals.{Allows};

use crate::BookFault;
use crate::book::Book;
use crate::refusals::{check_new, check_room, known_place};
use site_types::{Name, Text};
use std::alloc::Global;

const POLICY_LIMIT: usize = 256;

impl Book {
    // Where the policy of this name stands.
    pub(crate) fn policy_place(&self, alloc: Global, name: &Name) -> Result<usize, BookFault>
        ensures allows { Allows (lacks_policy name.now self.now ∷ []) result }
        ensures place { IfOk result (λ at. StandsAt policy_name self.now.policies name.now at) }
        ensures named { IfOk result (λ at. (d : PolicyValue) → named policy_name name.now self.now.policies ≡ Some (slice_index_or self.now.policies at d)) }
    {
        known_place(alloc, &self.policies, name)
    }

    fn has_lifecycle(&self, name: &Name) -> bool
        ensures { result ≡ has_lifecycle name.now self.now }
    {
        self.lifecycles.latest(name).is_some()
    }

    pub(crate) fn check_policy_add(
        &self,
        alloc: Global,
        name: &Name,
        lifecycle: &Name,
    ) -> Result<(), BookFault>
        ensures { Allows (policy_add_refusals name.now lifecycle.now self.now) result }
    {
        check_room(alloc, b"policies", self.policies.len(), POLICY_LIMIT)?;
        check_new(alloc, &self.policies, name)?;
        if !self.has_lifecycle(lifecycle) {
            return Err(BookFault::Unknown(Text::new(alloc, lifecycle.bytes())?));
        }
        Ok(())
    }

    // Where the policy stands.
    pub(crate) fn check_policy_change(
        &self,
        alloc: Global,
        name: &Name,
        lifecycle: Option<&Name>,
    ) -> Result<usize, BookFault>
        ensures allows { Allows (policy_change_refusals name.now (option_copied lifecycle.entry) self.now) result }
        ensures place { IfOk result (λ at. StandsAt policy_name self.now.policies name.now at) }
    {
        let at = known_place(alloc, &self.policies, name)?;
        if let Some(lifecycle) = lifecycle {
            if !self.has_lifecycle(lifecycle) {
                return Err(BookFault::Unknown(Text::new(alloc, lifecycle.bytes())?));
            }
        }
        Ok(at)
    }

    pub(crate) fn check_policy_remove(&self, alloc: Global, name: &Name) -> Result<(), BookFault>
        ensures { Allows (policy_remove_refusals name.now self.now) result }
    {
        known_place(alloc, &self.policies, name)?;
        if name.bytes() == b"adhoc".as_slice() {
            return Err(BookFault::InUse {
                name: Text::new(alloc, name.bytes())?,
                user: Text::new(alloc, b"desk")?,
            });
        }
        Ok(())
    }
}
