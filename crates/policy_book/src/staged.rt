use crate::{NewUnit, UnitChange};
use site_types::{CalendarItem, Kind, ListOf, Name, PolicyType, Text, Windows};

/// A change of a book that nothing refuses. What it changes in its place has that place in the book's list.
#[derive(Clone, Copy, Debug)]
pub enum StagedChange<'a> {
    AddUnit {
        name: &'a Name,
        unit: NewUnit,
    },
    ChangeUnit {
        name: &'a Name,
        at: usize,
        change: UnitChange,
    },
    AddClient {
        name: &'a Name,
    },
    RemoveClient {
        name: &'a Name,
    },
    AddPolicy {
        name: &'a Name,
        kind: PolicyType,
        lifecycle: &'a Name,
    },
    RemovePolicy {
        name: &'a Name,
    },
    ChangePolicy {
        policy: &'a Name,
        at: usize,
        change: PolicyChange<'a>,
    },
}

/// What of a policy is changed.
#[derive(Clone, Copy, Debug)]
pub enum PolicyChange<'a> {
    /// What is given is set.
    Set {
        active: Option<bool>,
        lifecycle: Option<&'a Name>,
    },
    AddClient {
        client: &'a Name,
    },
    RemoveClient {
        client: &'a Name,
    },
    AddPath {
        path: &'a Text,
    },
    RemovePath {
        path: &'a Text,
    },
    /// A schedule is put at its place, in place of the one of its name.
    PutSchedule {
        schedule: &'a Name,
        kind: Kind,
        frequency: Option<u64>,
        calendar: Option<&'a ListOf<CalendarItem>>,
        windows: &'a Windows,
    },
    RemoveSchedule {
        schedule: &'a Name,
    },
}
