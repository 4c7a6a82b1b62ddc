// The refusals that several changes share.
ghost use Rattle.std.specs.Prelude.{◌≡◌, IfOk, [], ◌∷◌, not, nat_le};
ghost use Rattle.policy_book.specs.Lists.{AreByName, has};
ghost use Rattle.policy_book.specs.Changes.{pair_text};
ghost use Rattle.slp_tree.specs.Places.{StandsAt};
ghost use Rattle.policy_book.specs.Refusals.{Allows};
ghost use Rattle.policy_book.specs.declared.fault.BookFault.TheVariants as fault;

use crate::{BookFault, NoMemory};
use site_types::{Name, Text};
use slp_tree::named::{Named, find, place};
use std::alloc::Global;

// There is room for one more of a kind.
pub fn check_room(alloc: Global, kind: &[u8], count: usize, limit: usize) -> Result<(), BookFault>
    ensures { Allows ((nat_le limit count, fault.TooMany kind.now count limit) ∷ []) result }
{
    if count >= limit {
        return Err(BookFault::TooMany {
            kind: Text::new(alloc, kind)?,
            count: count as u64,
            limit: limit as u64,
        });
    }
    Ok(())
}

// The name isn't there.
pub fn check_new<T: Named>(alloc: Global, list: &[T], name: &Name) -> Result<(), BookFault>
    requires { AreByName T.name_of list.now }
    ensures { Allows ((has T.name_of name.now list.now, fault.Exists name.now) ∷ []) result }
{
    if find(list, name).is_some() {
        return Err(BookFault::Exists(Text::new(alloc, name.bytes())?));
    }
    Ok(())
}

// Where the name stands.
pub fn known_place<T: Named>(alloc: Global, list: &[T], name: &Name) -> Result<usize, BookFault>
    requires { AreByName T.name_of list.now }
    ensures allows { Allows ((not (has T.name_of name.now list.now), fault.Unknown name.now) ∷ []) result }
    ensures place { IfOk result (λ at. StandsAt T.name_of list.now name.now at) }
{
    match place(list, name) {
        Ok(at) => Ok(at),
        Err(_) => Err(BookFault::Unknown(Text::new(alloc, name.bytes())?)),
    }
}

// The other name isn't there, on a list of the policy.
pub fn check_unlisted<T: Named>(
    alloc: Global,
    list: &[T],
    policy: &Name,
    other: &Name,
) -> Result<(), BookFault>
    requires { AreByName T.name_of list.now }
    ensures { Allows ((has T.name_of other.now list.now, fault.Exists (pair_text policy.now other.now)) ∷ []) result }
{
    if find(list, other).is_some() {
        return Err(BookFault::Exists(pair_text(alloc, policy.bytes(), other.bytes())?));
    }
    Ok(())
}

// The other name is there.
pub fn check_listed<T: Named>(
    alloc: Global,
    list: &[T],
    policy: &Name,
    other: &Name,
) -> Result<(), BookFault>
    requires { AreByName T.name_of list.now }
    ensures { Allows ((not (has T.name_of other.now list.now), fault.Unknown (pair_text policy.now other.now)) ∷ []) result }
{
    if find(list, other).is_none() {
        return Err(BookFault::Unknown(pair_text(alloc, policy.bytes(), other.bytes())?));
    }
    Ok(())
}

/// A policy's name and another one, as they are written together.
pub fn pair_text(alloc: Global, policy: &[u8], other: &[u8]) -> Result<Text, NoMemory>
    ensures { IfOk result (λ text. text ≡ pair_text policy.now other.now) }
{
    let mut text = policy.to_vec(alloc)?;
    text.push(b'/')?;
    text.extend_from_slice(other)?;
    Ok(Text::from_vec(text))
}
