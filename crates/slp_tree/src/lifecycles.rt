ghost use Rattle.std.specs.Prelude.{◌≡◌, ◌≤◌, ◌<◌, ◌+◌, ◌^◌, ℕ, [], ◌∷◌, ◌++◌, length, slice_get, map, insert, slice_set, IfOk, IfSome, OnOk, OnErr, Option, Some, None, List, unwrap_or};
ghost use Rattle.std.specs.Option.{option_copied, option_map, ForSome};
ghost use Rattle.slp_tree.specs.Lists.{AreByName};
ghost use Rattle.slp_tree.specs.Places.{StandsAt, LacksAt};
ghost use Rattle.slp_tree.specs.Lifecycles.{Lifecycle as LifecycleValue, IsAdded, lifecycle_name, version_in, version_named, latest_named, add_version};

use crate::named::{Named, find, place};
use crate::{NoMemory, Slp};
use site_types::{Copied, Name, copy_all};
use std::alloc::Global;
use std::marker::Model;

// A lifecycle, by its name, with its versions from the first on.
#[derive(Debug, Drop)]
struct Lifecycle {
    name: Name,
    versions: Vec<Slp>,
}

impl Model for Lifecycle {
    ghost use Rattle.std.specs.Prelude.{◌≤◌, ◌<◌, ◌^◌, length};
    ghost use Rattle.slp_tree.specs.Lifecycles.{Lifecycle as LifecycleValue};

    ghost Value = { LifecycleValue };

    ghost view = { λ l. record { name = l.name; versions = l.versions.items } };

    ghost invariant = { λ l. (1 ≤ length l.versions.items) × (length l.versions.items < 2 ^ 16) };
}

impl Named for Lifecycle {
    ghost use Rattle.slp_tree.specs.Lifecycles.{lifecycle_name};

    ghost name_of = { lifecycle_name };

    fn name(&self) -> &Name {
        &self.name
    }
}

impl Copied for Lifecycle {
    fn copy(&self, alloc: Global) -> Result<Lifecycle, NoMemory> {
        Ok(Lifecycle {
            name: self.name.copy(alloc)?,
            versions: copy_all(alloc, &self.versions)?,
        })
    }
}

impl Lifecycle {
    fn new(alloc: Global, name: Name, first: Slp) -> Result<Lifecycle, NoMemory>
        ensures { IfOk result (λ l. l ≡ record { name = name; versions = first ∷ [] }) }
    {
        let mut versions = Vec::new(alloc);
        versions.push(first)?;
        Ok(Lifecycle { name, versions })
    }

    // The number of the latest version.
    fn latest(&self) -> u16
        ensures latest { result ≡ length self.now.versions }
        ensures at_least { 1 ≤ result }
    {
        self.versions.len() as u16
    }

    fn version(&self, number: u16) -> Option<&Slp>
        ensures { option_copied result ≡ version_in number (Some self.now) }
    {
        if number == 0 {
            return None;
        }
        self.versions.get(usize::from(number - 1))
    }

    fn add(&mut self, version: Slp) -> Result<u16, NoMemory>
        requires { length self.old.versions < 65535 }
        ensures added { IfOk result (λ number. (self.new ≡ record { name = self.old.name; versions = self.old.versions ++ version ∷ [] }) × (number ≡ length self.old.versions + 1)) }
        ensures unchanged { OnErr result (self.new ≡ self.old) }
    {
        self.versions.push(version)?;
        Ok(self.versions.len() as u16)
    }
}

/// The storage lifecycles of a site, by name, each with its versions 1, 2, and so on.
#[derive(Debug, Drop)]
pub struct Lifecycles {
    listed: Vec<Lifecycle>,
}

impl Model for Lifecycles {
    ghost use Rattle.std.specs.Prelude.{◌≡◌, ◌<◌, ◌^◌, List, length};
    ghost use Rattle.slp_tree.specs.Lists.{AreByName};
    ghost use Rattle.slp_tree.specs.Lifecycles.{Lifecycle as LifecycleValue, lifecycle_name};

    ghost Value = { List LifecycleValue };

    ghost view = { λ l. l.listed.items };

    ghost invariant = { λ l. AreByName lifecycle_name l.listed.items × (length l.listed.items < 2 ^ 32) };
}

impl Copied for Lifecycles {
    fn copy(&self, alloc: Global) -> Result<Lifecycles, NoMemory> {
        Ok(Lifecycles {
            listed: copy_all(alloc, &self.listed)?,
        })
    }
}

impl Lifecycles {
    /// No lifecycles.
    pub fn new(alloc: Global) -> Lifecycles
        ensures { result ≡ [] }
    {
        Lifecycles {
            listed: Vec::new(alloc),
        }
    }

    /// The number of names.
    pub fn names(&self) -> u32
        ensures count { result ≡ length self.now }
        ensures by_name { AreByName lifecycle_name self.now }
    {
        self.listed.len() as u32
    }

    /// The name at a place, by name, and None exactly at or past their number.
    pub fn name_at(&self, index: u32) -> Option<&Name>
        ensures { option_copied result ≡ slice_get (map (λ l. l.name) self.now) index }
    {
        self.listed.get(index as usize).map(|l| l.name())
    }

    /// The number of a name's latest version, and None exactly where the name isn't there.
    pub fn latest(&self, name: &Name) -> Option<u16>
        ensures { result ≡ latest_named name.now self.now }
    {
        Some(find(&self.listed, name)?.latest())
    }

    /// The version of a name with this number, and None exactly where the name has no such version.
    pub fn find(&self, name: &Name, version: u16) -> Option<&Slp>
        ensures { option_copied result ≡ version_named name.now version self.now }
    {
        find(&self.listed, name)?.version(version)
    }

    /// Adds a name's next version, which is its first where the name isn't there, and answers its number. Every other
    /// version stays. Without memory everything is as before.
    pub fn add(&mut self, alloc: Global, name: &Name, slp: Slp) -> Result<u16, NoMemory>
        requires names { length self.old < 4294967295 }
        requires versions { ForSome (latest_named name.now self.old) (λ latest. latest < 65535) }

        ensures added { OnOk result (self.new ≡ add_version name.now slp self.old) }
        ensures number { IfOk result (λ number. number ≡ unwrap_or (latest_named name.now self.old) 0 + 1) }
        ensures unchanged { OnErr result (self.new ≡ self.old) }

        // The new version is found as the latest, and any other one as before.
        ensures latest { IfOk result (λ number. latest_named name.now self.new ≡ Some number) }
        ensures found { IfOk result (λ number. version_named name.now number self.new ≡ Some slp) }
        ensures others { IfOk result (λ number. (other : List ℕ) (version : ℕ) → ¬ ((other ≡ name.now) × (version ≡ number)) → version_named other version self.new ≡ version_named other version self.old) }
    {
        match place(&self.listed, name) {
            Ok(at) => self.add_at(at, name, slp),
            Err(at) => self.insert_at(alloc, at, name, slp),
        }
    }

    // A further version of the name that stands there.
    fn add_at(&mut self, at: usize, name: &Name, slp: Slp) -> Result<u16, NoMemory>
        requires place { StandsAt lifecycle_name self.old name.now at }
        requires versions { ForSome (latest_named name.now self.old) (λ latest. latest < 65535) }
        ensures { IsAdded name.now slp self.old self.new result }
    {
        self.listed[at].add(slp)
    }

    // The first version of a name that isn't there.
    fn insert_at(
        &mut self,
        alloc: Global,
        at: usize,
        name: &Name,
        slp: Slp,
    ) -> Result<u16, NoMemory>
        requires place { LacksAt lifecycle_name self.old name.now at }
        requires names { length self.old < 4294967295 }
        ensures { IsAdded name.now slp self.old self.new result }
    {
        let new = Lifecycle::new(alloc, name.copy(alloc)?, slp)?;
        self.listed.insert(at, new)?;
        Ok(1)
    }
}
