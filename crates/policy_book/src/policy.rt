ghost use Rattle.std.specs.Prelude.{◌≡◌, true, [], OnOk, OnErr, IfOk};
ghost use Rattle.std.specs.Option.{option_copied};
ghost use Rattle.std.specs.List.{list_any};
ghost use Rattle.std.specs.Str.{bytes_eq};
ghost use Rattle.policy_book.specs.Lists.{AreByName, has, itself};
ghost use Rattle.policy_book.specs.Book.{schedule_name};
ghost use Rattle.policy_book.specs.Changes.{policy_with, with_schedule, without_path};
ghost use Rattle.policy_book.specs.Requests.{mode_of, schedule_of};
ghost use Rattle.policy_book.specs.Staged.{policy_after};

use crate::{NoMemory, PolicyChange};
use site_types::{
    CalendarItem, Copied, Kind, ListOf, Mode, Name, Schedule, Text, Windows, copy_all,
};
use slp_tree::named::{Named, find, put, remove};
use std::alloc::Global;
use std::marker::Model;

/// A policy: which clients are backed up, what of them, when, and under which lifecycle.
#[derive(Debug, Drop)]
pub struct Policy {
    name: Name,
    files: bool,
    active: bool,
    lifecycle: Name,
    clients: Vec<Name>,
    selections: Vec<Text>,
    schedules: Vec<Schedule>,
}

impl Model for Policy {
    ghost use Rattle.policy_book.specs.Book.{Policy as PolicyValue, PolicyOrdered};

    ghost Value = { PolicyValue };

    ghost view = { λ p. record { name = p.name; files = p.files; active = p.active; lifecycle = p.lifecycle; clients = p.clients.items; selections = p.selections.items; schedules = p.schedules.items } };

    ghost invariant = { λ p. PolicyOrdered (record { name = p.name; files = p.files; active = p.active; lifecycle = p.lifecycle; clients = p.clients.items; selections = p.selections.items; schedules = p.schedules.items }) };
}

impl Copied for Policy {
    fn copy(&self, alloc: Global) -> Result<Policy, NoMemory> {
        Ok(Policy {
            name: self.name.copy(alloc)?,
            files: self.files,
            active: self.active,
            lifecycle: self.lifecycle.copy(alloc)?,
            clients: copy_all(alloc, &self.clients)?,
            selections: copy_all(alloc, &self.selections)?,
            schedules: copy_all(alloc, &self.schedules)?,
        })
    }
}

impl Named for Policy {
    ghost use Rattle.policy_book.specs.Book.{policy_name};

    ghost name_of = { policy_name };

    fn name(&self) -> &Name {
        Policy::name(self)
    }
}

impl Policy {
    // An active policy that lists no clients and has no selections or schedules yet.
    pub(crate) fn new(alloc: Global, name: Name, files: bool, lifecycle: Name) -> Policy
        ensures { result ≡ record { name = name; files = files; active = true; lifecycle = lifecycle; clients = []; selections = []; schedules = [] } }
    {
        Policy {
            name,
            files,
            active: true,
            lifecycle,
            clients: Vec::new(alloc),
            selections: Vec::new(alloc),
            schedules: Vec::new(alloc),
        }
    }

    /// Its name.
    pub fn name(&self) -> &Name
        ensures { result.now ≡ self.now.name }
    {
        &self.name
    }

    /// Its backups are made of a client's files, and not of bytes as they come.
    pub fn files(&self) -> bool
        ensures { result ≡ self.now.files }
    {
        self.files
    }

    /// Whether it is active.
    pub fn active(&self) -> bool
        ensures { result ≡ self.now.active }
    {
        self.active
    }

    /// The name of its lifecycle.
    pub fn lifecycle(&self) -> &Name
        ensures { result.now ≡ self.now.lifecycle }
    {
        &self.lifecycle
    }

    /// The clients on its list, by name.
    pub fn clients(&self) -> &[Name]
        ensures clients { result.now ≡ self.now.clients }
        ensures by_name { AreByName itself self.now.clients }
    {
        &self.clients
    }

    /// The paths that its backups take, in the order in which they were added.
    pub fn selections(&self) -> &[Text]
        ensures { result.now ≡ self.now.selections }
    {
        &self.selections
    }

    /// Its schedules, by name.
    pub fn schedules(&self) -> &[Schedule]
        ensures schedules { result.now ≡ self.now.schedules }
        ensures by_name { AreByName schedule_name self.now.schedules }
    {
        &self.schedules
    }

    /// A client is on its list.
    pub fn lists(&self, client: &Name) -> bool
        ensures { result ≡ has itself client.now self.now.clients }
    {
        find(&self.clients, client).is_some()
    }

    // The path is among its selections.
    pub(crate) fn selects(&self, path: &Text) -> bool
        ensures { result ≡ list_any (λ s. bytes_eq s path.now) self.now.selections }
    {
        self.selections
            .iter()
            .any(|selection| selection.bytes() == path.bytes())
    }

    // Makes a change of it. Without memory the policy stays.
    pub(crate) fn change(&mut self, alloc: Global, change: PolicyChange<'_>) -> Result<(), NoMemory>
        ensures after { OnOk result (self.new ≡ policy_after change.entry self.old) }
        ensures unchanged { OnErr result (self.new ≡ self.old) }
        ensures named { self.new.name ≡ self.old.name }
    {
        match change {
            PolicyChange::Set { active, lifecycle } => {
                let lifecycle = copied(alloc, lifecycle)?;
                self.set(active, lifecycle);
                Ok(())
            }
            PolicyChange::AddClient { client } => put(&mut self.clients, client.copy(alloc)?),
            PolicyChange::RemoveClient { client } => {
                remove(&mut self.clients, client);
                Ok(())
            }
            PolicyChange::AddPath { path } => {
                self.selections.push(Text::new(alloc, path.bytes())?)?;
                Ok(())
            }
            PolicyChange::RemovePath { path } => {
                self.unselect(path);
                Ok(())
            }
            PolicyChange::PutSchedule {
                schedule,
                kind,
                frequency,
                calendar,
                windows,
            } => {
                self.put_schedule(schedule_of(alloc, schedule, kind, frequency, calendar, windows)?)
            }
            PolicyChange::RemoveSchedule { schedule } => {
                remove(&mut self.schedules, schedule);
                Ok(())
            }
        }
    }

    fn set(&mut self, active: Option<bool>, lifecycle: Option<Name>)
        ensures { self.new ≡ policy_with active lifecycle self.old }
    {
        if let Some(active) = active {
            self.active = active;
        }
        if let Some(lifecycle) = lifecycle {
            self.lifecycle = lifecycle;
        }
    }

    // Puts a schedule at its place, in place of the one of its name. Without memory the policy stays.
    pub(crate) fn put_schedule(&mut self, schedule: Schedule) -> Result<(), NoMemory>
        ensures put { OnOk result (self.new ≡ with_schedule schedule self.old) }
        ensures unchanged { OnErr result (self.new ≡ self.old) }
    {
        put(&mut self.schedules, schedule)
    }

    fn unselect(&mut self, path: &Text)
        ensures { self.new ≡ without_path path.now self.old }
    {
        self.selections
            .retain(|selection| selection.bytes() != path.bytes());
    }
}

fn copied(alloc: Global, name: Option<&Name>) -> Result<Option<Name>, NoMemory>
    ensures { IfOk result (λ copy. copy ≡ option_copied name.entry) }
{
    match name {
        Some(name) => Ok(Some(name.copy(alloc)?)),
        None => Ok(None),
    }
}

// The schedule that a request asks for.
fn schedule_of(
    alloc: Global,
    name: &Name,
    kind: Kind,
    frequency: Option<u64>,
    calendar: Option<&ListOf<CalendarItem>>,
    windows: &Windows,
) -> Result<Schedule, NoMemory>
    ensures { IfOk result (λ schedule. schedule ≡ schedule_of name.now kind frequency (option_copied calendar.entry) windows.now) }
{
    Ok(Schedule {
        name: name.copy(alloc)?,
        kind,
        mode: mode_of(alloc, frequency, calendar)?,
        windows: windows.copy(alloc)?,
    })
}

// A frequency, or else a calendar.
fn mode_of(
    alloc: Global,
    frequency: Option<u64>,
    calendar: Option<&ListOf<CalendarItem>>,
) -> Result<Mode, NoMemory>
    ensures { IfOk result (λ mode. mode ≡ mode_of frequency (option_copied calendar.entry)) }
{
    match (frequency, calendar) {
        (Some(seconds), _) => Ok(Mode::Frequency(seconds)),
        (None, Some(items)) => Ok(Mode::Calendar(ListOf::from_vec(
            items.as_slice().to_vec(alloc)?,
        ))),
        (None, None) => Ok(Mode::Calendar(ListOf::new(alloc))),
    }
}
