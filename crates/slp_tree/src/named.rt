// Lists in the order of their elements' names.
ghost use Rattle.std.specs.Prelude.{◌≡◌, ◌≤◌, ◌+◌, ℕ, List, length, OnOk, OnErr};
ghost use Rattle.std.specs.Option.{option_copied};
ghost use Rattle.std.specs.Cmp.Lexicographic.{slice_cmp};
ghost use Rattle.std.specs.Ordering.{nat_cmp};
ghost use Rattle.slp_tree.specs.Lists.{AreByName, named, put, without};
ghost use Rattle.slp_tree.specs.Places.{IsPlace};

use crate::NoMemory;
use site_types::{Name, Schedule, Unit};
use std::cmp::Ordering;

/// What has a name.
pub trait Named {
    ghost name_of: { Self → List ℕ };

    fn name(&self) -> &Name
        ensures { result.now ≡ name_of self.now };
}

impl Named for Unit {
    ghost name_of = { λ unit. unit.name };

    fn name(&self) -> &Name {
        &self.name
    }
}

impl Named for Schedule {
    ghost name_of = { λ schedule. schedule.name };

    fn name(&self) -> &Name {
        &self.name
    }
}

impl Named for Name {
    ghost use Rattle.slp_tree.specs.Lists.{itself};

    ghost name_of = { itself };

    fn name(&self) -> &Name {
        self
    }
}

fn compare<T: Named>(item: &T, name: &Name) -> Ordering
    ensures { result ≡ slice_cmp nat_cmp (T.name_of item.now) name.now }
{
    item.name().cmp(name)
}

/// Where a name stands, or would stand.
pub fn place<T: Named>(list: &[T], name: &Name) -> Result<usize, usize>
    requires { AreByName T.name_of list.now }
    ensures { IsPlace T.name_of list.now name.now result }
{
    list.binary_search_by(|item| compare(item, name))
}

/// The element of this name.
pub fn find<'a, T: Named>(list: &'a [T], name: &Name) -> Option<&'a T>
    requires { AreByName T.name_of list.now }
    ensures { option_copied result ≡ named T.name_of name.now list.now }
{
    match place(list, name) {
        Ok(at) => Some(&list[at]),
        Err(_) => None,
    }
}

/// Puts an element at its place, and drops the one of its name where there is one. Without memory the list stays.
pub fn put<T: Named + Drop>(list: &mut Vec<T>, item: T) -> Result<(), NoMemory>
    requires { AreByName T.name_of list.old.items }
    ensures put { OnOk result (list.new.items ≡ put T.name_of item list.old.items) }
    ensures unchanged { OnErr result (list.new.items ≡ list.old.items) }
    ensures by_name { AreByName T.name_of list.new.items }
    ensures at_most { length list.new.items ≤ length list.old.items + 1 }
{
    match place(list, item.name()) {
        Ok(at) => list[at] = item,
        Err(at) => list.insert(at, item)?,
    }
    Ok(())
}

/// Drops the element of this name.
pub fn remove<T: Named + Drop>(list: &mut Vec<T>, name: &Name)
    requires { AreByName T.name_of list.old.items }
    ensures without { list.new.items ≡ without T.name_of name.now list.old.items }
    ensures by_name { AreByName T.name_of list.new.items }
{
    if let Ok(at) = place(list, name) {
        list.remove(at);
    }
}
