// The request that the values of words make, for each form. None where something is missing, or the values don't go together.
ghost use Rattle.std.specs.Prelude.{◌≡◌, IfOk, codes, option_map};
ghost use Rattle.std.specs.Option.{option_zip};
ghost use Rattle.site_types.specs.Forms.{Scheduling, are_marks, form_named, pair_of, restore_of, schedule_keys, schedule_made, zone_of};
ghost use Rattle.site_types.specs.Keys.{among, given_among, name_of};
ghost use Rattle.site_types.specs.Paths.{path_of};
ghost use Rattle.site_types.specs.declared.forms.FormName.TheVariants as form;
ghost use Rattle.site_types.specs.declared.request.Request.TheVariants as request;

use crate::forms::{
    ACTIVE, BEFORE, CALENDAR, CAPACITY, CLIENT, COPY, FRAGMENT, FREQUENCY, FormName, HIGH, ID,
    KIND, LIFECYCLE, LOW, NAME, OFFSET, PATH, POLICY, RULE, SCHEDULE, SEGMENT, SLOTS, START, TYPE,
    WINDOWS,
};
use crate::keys::FormKey;
use crate::values::{
    calendar_among, id_among, kind_among, name_among, number_among, offset_among, path_among,
    policy_type_among, rule_among, start_among, u8_among, u32_among, windows_among,
    yes_or_no_among,
};
use crate::{BackupId, CalendarItem, Kind, ListOf, Name, NoMemory, Request, Text, Windows};
use std::alloc::Global;

// The marks of a unit that is added without them.
const HIGH_MARK: u8 = 98;

const LOW_MARK: u8 = 80;

impl FormName {
    /// The request that the values of words make which stand behind the form's own.
    pub fn made(self, alloc: Global, words: &[Text]) -> Result<Option<Request>, NoMemory>
        ensures { IfOk result (λ o. o ≡ (form_named self).made (given_among (form_named self).keys words.now)) }
    {
        match self {
            FormName::UnitAdd => unit_add(alloc, words),
            FormName::UnitChange => unit_change(alloc, words),
            FormName::ClientAdd => {
                Ok(name_among(alloc, words, &NAME)?.map(|name| Request::ClientAdd { name }))
            }
            FormName::ClientRemove => {
                Ok(name_among(alloc, words, &NAME)?.map(|name| Request::ClientRemove { name }))
            }
            FormName::PolicyAdd => policy_add(alloc, words),
            FormName::PolicyChange => policy_change(alloc, words),
            FormName::PolicyRemove => {
                Ok(name_among(alloc, words, &POLICY)?.map(|policy| Request::PolicyRemove {
                    policy,
                }))
            }
            FormName::PolicyClientAdd => Ok(names_among(alloc, words, &CLIENT)?.map(|(
                policy,
                client,
            )| Request::PolicyClientAdd { policy, client })),
            FormName::PolicyClientRemove => Ok(names_among(alloc, words, &CLIENT)?.map(|(
                policy,
                client,
            )| Request::PolicyClientRemove { policy, client })),
            FormName::PolicySelect => Ok(selection_among(alloc, words)?.map(|(
                policy,
                path,
            )| Request::PolicySelect { policy, path })),
            FormName::PolicyUnselect => Ok(selection_among(alloc, words)?.map(|(
                policy,
                path,
            )| Request::PolicyUnselect { policy, path })),
            FormName::ScheduleAdd => Ok(scheduled_among(alloc, words)?.map(Scheduled::added)),
            FormName::ScheduleChange => Ok(scheduled_among(alloc, words)?.map(Scheduled::changed)),
            FormName::ScheduleRemove => Ok(names_among(alloc, words, &SCHEDULE)?.map(|(
                policy,
                schedule,
            )| Request::ScheduleRemove { policy, schedule })),
            FormName::ZoneSet => {
                let rule = rule_among(alloc, words, &RULE)?;
                Ok(zone_of(rule, offset_among(words, &OFFSET)))
            }
            FormName::Load => Ok(Some(Request::Load)),
            FormName::Backup => backup(alloc, words),
            FormName::Restore => restore(alloc, words),
        }
    }
}

fn unit_add(alloc: Global, words: &[Text]) -> Result<Option<Request>, NoMemory>
    ensures { IfOk result (λ o. o ≡ (form_named form.UnitAdd).made (given_among (form_named form.UnitAdd).keys words.now)) }
{
    let Some(name) = name_among(alloc, words, &NAME)? else {
        return Ok(None);
    };
    let Some(capacity) = number_among(words, &CAPACITY) else {
        return Ok(None);
    };
    let high = u8_among(words, &HIGH);
    let low = u8_among(words, &LOW);
    if low.unwrap_or(LOW_MARK) >= high.unwrap_or(HIGH_MARK) {
        return Ok(None);
    }
    Ok(Some(Request::UnitAdd {
        name,
        capacity,
        segment: u32_among(words, &SEGMENT),
        fragment: u32_among(words, &FRAGMENT),
        slots: u32_among(words, &SLOTS),
        high,
        low,
    }))
}

fn unit_change(alloc: Global, words: &[Text]) -> Result<Option<Request>, NoMemory>
    ensures { IfOk result (λ o. o ≡ (form_named form.UnitChange).made (given_among (form_named form.UnitChange).keys words.now)) }
{
    let Some(name) = name_among(alloc, words, &NAME)? else {
        return Ok(None);
    };
    let high = u8_among(words, &HIGH);
    let low = u8_among(words, &LOW);
    if !are_marks(high, low) {
        return Ok(None);
    }
    Ok(Some(Request::UnitChange {
        name,
        capacity: number_among(words, &CAPACITY),
        slots: u32_among(words, &SLOTS),
        high,
        low,
    }))
}

// Both are given, the low one below the high one, or none is.
fn are_marks(high: Option<u8>, low: Option<u8>) -> bool
    ensures { result ≡ are_marks high low }
{
    match (high, low) {
        (None, None) => true,
        (Some(high), Some(low)) => low < high,
        _ => false,
    }
}

// A policy, and the name of another key.
fn names_among(
    alloc: Global,
    words: &[Text],
    key: &FormKey,
) -> Result<Option<(Name, Name)>, NoMemory>
    ensures { IfOk result (λ o. o ≡ option_zip (among name_of (codes "policy") words.now) (among name_of key.now.name.now words.now)) }
{
    let policy = name_among(alloc, words, &POLICY)?;
    Ok(policy.zip(name_among(alloc, words, key)?))
}

// A policy, and a path.
fn selection_among(alloc: Global, words: &[Text]) -> Result<Option<(Name, Text)>, NoMemory>
    ensures { IfOk result (λ o. o ≡ option_zip (among name_of (codes "policy") words.now) (among path_of (codes "path") words.now)) }
{
    let policy = name_among(alloc, words, &POLICY)?;
    Ok(policy.zip(path_among(alloc, words, &PATH)?))
}

fn policy_add(alloc: Global, words: &[Text]) -> Result<Option<Request>, NoMemory>
    ensures { IfOk result (λ o. o ≡ (form_named form.PolicyAdd).made (given_among (form_named form.PolicyAdd).keys words.now)) }
{
    let policy = name_among(alloc, words, &POLICY)?;
    let policy_type = policy_type_among(words, &TYPE);
    let lifecycle = name_among(alloc, words, &LIFECYCLE)?;
    Ok(match (policy, policy_type, lifecycle) {
        (Some(policy), Some(policy_type), Some(lifecycle)) => Some(Request::PolicyAdd {
            policy,
            policy_type,
            lifecycle,
        }),
        _ => None,
    })
}

fn policy_change(alloc: Global, words: &[Text]) -> Result<Option<Request>, NoMemory>
    ensures { IfOk result (λ o. o ≡ (form_named form.PolicyChange).made (given_among (form_named form.PolicyChange).keys words.now)) }
{
    let policy = name_among(alloc, words, &POLICY)?;
    let active = yes_or_no_among(words, &ACTIVE);
    let lifecycle = name_among(alloc, words, &LIFECYCLE)?;
    Ok(policy.map(|policy| Request::PolicyChange {
        policy,
        active,
        lifecycle,
    }))
}

// What the words say of a schedule that is added or changed.
#[derive(Drop)]
struct Scheduled {
    policy: Name,
    schedule: Name,
    kind: Kind,
    frequency: Option<u64>,
    calendar: Option<ListOf<CalendarItem>>,
    windows: Windows,
}

impl Scheduled {
    fn added(self) -> Request
        ensures { result ≡ request.ScheduleAdd self.policy self.schedule self.kind self.frequency self.calendar self.windows }
    {
        Request::ScheduleAdd {
            policy: self.policy,
            schedule: self.schedule,
            kind: self.kind,
            frequency: self.frequency,
            calendar: self.calendar,
            windows: self.windows,
        }
    }

    fn changed(self) -> Request
        ensures { result ≡ request.ScheduleChange self.policy self.schedule self.kind self.frequency self.calendar self.windows }
    {
        Request::ScheduleChange {
            policy: self.policy,
            schedule: self.schedule,
            kind: self.kind,
            frequency: self.frequency,
            calendar: self.calendar,
            windows: self.windows,
        }
    }
}

// None where something is missing, or a frequency and a calendar are given, or neither.
fn scheduled_among(alloc: Global, words: &[Text]) -> Result<Option<Scheduled>, NoMemory>
    ensures { (makes : Scheduling) → IfOk result (λ o. option_map (λ s. makes s.policy s.schedule s.kind s.frequency s.calendar s.windows) o ≡ schedule_made makes (given_among schedule_keys words.now)) }
{
    let frequency = number_among(words, &FREQUENCY);
    let calendar = calendar_among(alloc, words, &CALENDAR)?;
    if frequency.is_some() == calendar.is_some() {
        return Ok(None);
    }
    let Some(policy) = name_among(alloc, words, &POLICY)? else {
        return Ok(None);
    };
    let Some(schedule) = name_among(alloc, words, &SCHEDULE)? else {
        return Ok(None);
    };
    let Some(kind) = kind_among(words, &KIND) else {
        return Ok(None);
    };
    let Some(windows) = windows_among(alloc, words, &WINDOWS)? else {
        return Ok(None);
    };
    Ok(Some(Scheduled {
        policy,
        schedule,
        kind,
        frequency,
        calendar,
        windows,
    }))
}

// One of the two is given.
fn zone_of(rule: Option<Text>, offset: Option<i32>) -> Option<Request>
    ensures { result ≡ zone_of rule offset }
{
    if rule.is_some() == offset.is_some() {
        return None;
    }
    Some(Request::ZoneSet { rule, offset })
}

fn backup(alloc: Global, words: &[Text]) -> Result<Option<Request>, NoMemory>
    ensures { IfOk result (λ o. o ≡ (form_named form.Backup).made (given_among (form_named form.Backup).keys words.now)) }
{
    let Some(client) = name_among(alloc, words, &CLIENT)? else {
        return Ok(None);
    };
    Ok(Some(Request::Backup {
        client,
        policy: name_among(alloc, words, &POLICY)?,
        schedule: name_among(alloc, words, &SCHEDULE)?,
        start: start_among(words, &START),
    }))
}

// By an id, or by a client and a policy: the keys of the two don't go together.
fn restore(alloc: Global, words: &[Text]) -> Result<Option<Request>, NoMemory>
    ensures { IfOk result (λ o. o ≡ (form_named form.Restore).made (given_among (form_named form.Restore).keys words.now)) }
{
    let id = id_among(alloc, words, &ID)?;
    let copy = u8_among(words, &COPY);
    let client = name_among(alloc, words, &CLIENT)?;
    let policy = name_among(alloc, words, &POLICY)?;
    let before = number_among(words, &BEFORE);
    Ok(restore_of(id, copy, client, policy, before))
}

fn restore_of(
    id: Option<BackupId>,
    copy: Option<u8>,
    client: Option<Name>,
    policy: Option<Name>,
    before: Option<u64>,
) -> Option<Request>
    ensures { result ≡ restore_of id copy client policy before }
{
    match id {
        Some(id) if client.is_none() && policy.is_none() && before.is_none() => {
            Some(Request::Restore { id, copy })
        }
        None if copy.is_none() => {
            client.zip(policy).map(|(client, policy)| Request::RestoreAt {
                client,
                policy,
                before,
            })
        }
        _ => None,
    }
}
