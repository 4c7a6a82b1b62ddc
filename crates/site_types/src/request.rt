use crate::forms::{form_among, formless};
use crate::keys::first_bad;
use crate::line::Line;
use crate::{
    BackupId, ByClass, CalendarItem, Class, Form, Kind, ListOf, Name, NoMemory, PolicyType, Start,
    Text, Windows,
};
use std::alloc::Global;

/// A request, in the order of their table. A key that may be missing is an `Option`.
#[derive(Debug, Drop)]
pub enum Request {
    /// Adds a unit of storage. The capacity and the segments' length are in bytes, the marks in hundredths of the capacity.
    UnitAdd {
        name: Name,
        capacity: u64,
        segment: Option<u32>,
        fragment: Option<u32>,
        slots: Option<u32>,
        high: Option<u8>,
        low: Option<u8>,
    },
    /// Changes what is given of a unit.
    UnitChange {
        name: Name,
        capacity: Option<u64>,
        slots: Option<u32>,
        high: Option<u8>,
        low: Option<u8>,
    },
    ClientAdd {
        name: Name,
    },
    ClientRemove {
        name: Name,
    },
    PolicyAdd {
        policy: Name,
        policy_type: PolicyType,
        lifecycle: Name,
    },
    /// Changes what is given of a policy.
    PolicyChange {
        policy: Name,
        active: Option<bool>,
        lifecycle: Option<Name>,
    },
    PolicyRemove {
        policy: Name,
    },
    /// Lists a client in a policy.
    PolicyClientAdd {
        policy: Name,
        client: Name,
    },
    PolicyClientRemove {
        policy: Name,
        client: Name,
    },
    /// Selects a path for a policy.
    PolicySelect {
        policy: Name,
        path: Text,
    },
    PolicyUnselect {
        policy: Name,
        path: Text,
    },
    /// Adds a schedule to a policy. It has a frequency in seconds or a calendar, and not both.
    ScheduleAdd {
        policy: Name,
        schedule: Name,
        kind: Kind,
        frequency: Option<u64>,
        calendar: Option<ListOf<CalendarItem>>,
        windows: Windows,
    },
    /// Puts a schedule in the place of a policy's schedule of this name.
    ScheduleChange {
        policy: Name,
        schedule: Name,
        kind: Kind,
        frequency: Option<u64>,
        calendar: Option<ListOf<CalendarItem>>,
        windows: Windows,
    },
    ScheduleRemove {
        policy: Name,
        schedule: Name,
    },
    /// Sets the zone: a POSIX rule text, or an offset in seconds, east above 0, and not both.
    ZoneSet {
        rule: Option<Text>,
        offset: Option<i32>,
    },
    /// Carries out the requests of the site file that is the payload, or none of them.
    Load,
    /// Backs up the payload as a new image of the client.
    Backup {
        client: Name,
        policy: Option<Name>,
        schedule: Option<Name>,
        start: Option<Start>,
    },
    /// Restores the image with this id, from the copy of this number or, without one, from its primary copy.
    Restore {
        id: BackupId,
        copy: Option<u8>,
    },
    /// Restores what a client had under a policy at a moment, in seconds since 1970-01-01T00:00:00Z, or at that of the request.
    RestoreAt {
        client: Name,
        policy: Name,
        before: Option<u64>,
    },
}

/// Why words are no request.
#[derive(Clone, Copy, Debug)]
pub enum WordFault {
    /// The word with this index, from 0, is bad; or words are missing, and the index is their number.
    Bad { index: u64 },
    NoMemory,
}

impl From<NoMemory> for WordFault {
    ghost use Rattle.std.specs.Prelude.{◌≡◌};
    ghost use Rattle.site_types.specs.declared.request.WordFault.TheVariants as fault;

    ghost from_gives = { λ _ e. e ≡ fault.NoMemory };

    fn from(_: NoMemory) -> WordFault {
        WordFault::NoMemory
    }
}

impl Request {
    ghost use Rattle.std.specs.Prelude.{◌≡◌, ◌++◌, length, IfOk, OnOk, OnErr};
    ghost use Rattle.site_types.specs.Classes.{class_of, class_seen, tag_of};
    ghost use Rattle.site_types.specs.Requests.{IsReading, IsWithin, read_words, takes_payload};
    ghost use Rattle.site_types.specs.Lines.{IsFormed, line_of};

    /// The request that these words ask for.
    #[tactic(auto, using(crate::proofs::Rereading::reread))]
    pub fn read(alloc: Global, words: &[Text]) -> Result<Request, WordFault>
        ensures reading { IsReading result (read_words words.now) }
        ensures within { IsWithin result (length words.now) }
        ensures formed { IfOk result IsFormed }
    {
        match form_among(words) {
            Some(form) => form.read(alloc, words),
            None => Err(WordFault::Bad {
                index: formless(words),
            }),
        }
    }

    /// Its line may name a payload.
    pub fn takes_payload(&self) -> bool
        ensures { result ≡ takes_payload self.now }
    {
        self.form().takes_payload
    }

    /// Its class, with what that asks for.
    pub fn by_class(&self) -> ByClass<'_>
        ensures { class_seen result ≡ class_of self.now }
    {
        match self {
            Request::UnitAdd { .. }
            | Request::UnitChange { .. }
            | Request::ClientAdd { .. }
            | Request::ClientRemove { .. }
            | Request::PolicyAdd { .. }
            | Request::PolicyChange { .. }
            | Request::PolicyRemove { .. }
            | Request::PolicyClientAdd { .. }
            | Request::PolicyClientRemove { .. }
            | Request::PolicySelect { .. }
            | Request::PolicyUnselect { .. }
            | Request::ScheduleAdd { .. }
            | Request::ScheduleChange { .. }
            | Request::ScheduleRemove { .. }
            | Request::ZoneSet { .. } => ByClass::SiteChange(self),
            Request::Load => ByClass::SiteFile,
            Request::Backup {
                client,
                policy,
                schedule,
                start,
            } => ByClass::Backup {
                client,
                policy: policy.as_ref(),
                schedule: schedule.as_ref(),
                start: *start,
            },
            Request::Restore { id, copy } => ByClass::Restore { id, copy: *copy },
            Request::RestoreAt {
                client,
                policy,
                before,
            } => ByClass::RestoreAt {
                client,
                policy,
                before: *before,
            },
        }
    }

    /// The class of its form.
    pub fn class(&self) -> Class
        ensures { result ≡ tag_of (class_of self.now) }
    {
        self.form().class
    }

    /// Appends its words, joined by single spaces, with the keys in the order of their table. Where the request is formed, `read`
    /// of these words gives it again. Without memory `out` is left as it was.
    #[tactic(auto, using(crate::proofs::LineLemmas::line_parts))]
    pub fn write_line(&self, alloc: Global, out: &mut Vec<u8>) -> Result<(), NoMemory>
        ensures written { OnOk result (out.new.items ≡ out.old.items ++ line_of self.now) }
        ensures unchanged { OnErr result (out.new.items ≡ out.old.items) }
    {
        let form = Line::new(alloc, &self.form())?;
        let line = self.fields(alloc, form)?;
        out.extend_from_slice(line.text())
    }
}

impl Form {
    ghost use Rattle.std.specs.Prelude.{◌≡◌, ◌≤◌, length, true};
    ghost use Rattle.site_types.specs.Forms.{begins, form_named, row_stated};
    ghost use Rattle.site_types.specs.Requests.{IsReading, IsWithin, form_read};

    // The request that words ask for which begin with its own. Where its values make none, words are missing, or they don't go
    // together: the fault's index is the number of all words.
    fn read(&self, alloc: Global, words: &[Text]) -> Result<Request, WordFault>
        requires row { row_stated self.now ≡ form_named self.now.name }
        requires begun { begins (row_stated self.now).first (row_stated self.now).second words.now ≡ true }
        ensures reading { IsReading result (form_read (row_stated self.now) words.now) }
        ensures within { IsWithin result (length words.now) }
    {
        let further = &words[self.count()..];
        let made = self.name.made(alloc, further)?;
        match first_bad(alloc, further, self.keys, self.count() as u64)? {
            Some(index) => Err(WordFault::Bad { index }),
            None => made.ok_or(WordFault::Bad {
                index: words.len() as u64,
            }),
        }
    }
}
