ghost use Rattle.std.specs.Prelude.{◌≡◌, ◌≤◌, [], ◌++◌, if◌then◌else◌, map, filter, IfOk, OnOk, IfSome};
ghost use Rattle.std.specs.Option.{option_map, option_map_or, ForSome};
ghost use Rattle.site_types.specs.Limits.{last_moment};
ghost use Rattle.schedule_windows.specs.Zones.{IsCivil, civil_at};
ghost use Rattle.desk_rules.specs.DueBackups.{last_in, is_due_for, may_be_due, mode_before, fore, foremost, line_of, due_of_policy, due_backups, AllInTime};

use crate::NoMemory;
use crate::last_times::LastTimes;
use desk_model::Site;
use policy_book::Policy;
use schedule_windows::{Civil, Last, Zone, due};
use site_types::{DueBackup, ImageRecord, Mode, Name, Schedule};
use std::alloc::Global;

// A moment at a site, with what its zone's clock shows then, and the images that there are.
#[derive(Drop)]
struct Moment<'a> {
    zone: &'a Zone,
    images: LastTimes<'a>,
    // Seconds since 1970-01-01T00:00:00Z.
    time: u64,
    civil: Civil,
    ghost shown: { civil ≡ civil_at zone.now time },
    ghost is_civil: { IsCivil civil },
}

/// The backups that are due at a moment, in seconds since 1970-01-01T00:00:00Z: at most one for each client of each active
/// policy, by policy and then by client. Where several of a policy's schedules are due for a client, it is made under a
/// calendar schedule before one by frequency, under a longer frequency before a shorter, and of those that tie under the
/// first by name. A schedule's last image for a client is the latest of `images` that was made for that client under that
/// policy and schedule. The one error is that no memory was left.
pub fn due_backups(
    alloc: Global,
    site: &Site,
    images: &[ImageRecord],
    moment: u64,
) -> Result<Vec<DueBackup>, NoMemory>
    requires moment { moment ≤ last_moment }
    requires times { AllInTime images.now }
    ensures { IfOk result (λ v. v.items ≡ due_backups site.now images.now moment) }
{
    let moment = Moment {
        zone: &site.zone,
        images: LastTimes::new(alloc, images)?,
        time: moment,
        civil: site.zone.civil(alloc, moment)?,
    };
    let mut lines = Vec::new(alloc);
    for policy in site.book.policies() {
        push_if_active(alloc, &moment, policy, &mut lines)?;
    }
    Ok(lines)
}

fn push_if_active(
    alloc: Global,
    moment: &Moment<'_>,
    policy: &Policy,
    lines: &mut Vec<DueBackup>,
) -> Result<(), NoMemory>
    ensures { OnOk result (lines.new.items ≡ lines.old.items ++ (if policy.now.active then due_of_policy moment.now.zone.now moment.now.images moment.now.time policy.now else [])) }
{
    if !policy.active() {
        return Ok(());
    }
    push_policy(alloc, moment, policy, lines)
}

// Adds the lines of a policy's clients.
fn push_policy(
    alloc: Global,
    moment: &Moment<'_>,
    policy: &Policy,
    lines: &mut Vec<DueBackup>,
) -> Result<(), NoMemory>
    ensures { OnOk result (lines.new.items ≡ lines.old.items ++ due_of_policy moment.now.zone.now moment.now.images moment.now.time policy.now) }
{
    let schedules = may_be_due(alloc, moment, policy.schedules())?;
    for client in policy.clients() {
        push_client(alloc, moment, policy.name(), client, &schedules, lines)?;
    }
    Ok(())
}

// The schedules that are due for a client that has no image of them. No other is due for any client, so only these need a
// client's last image.
fn may_be_due<'a>(
    alloc: Global,
    moment: &Moment<'_>,
    schedules: &'a [Schedule],
) -> Result<Vec<&'a Schedule>, NoMemory>
    ensures { IfOk result (λ v. map (λ s. s.now) v.items ≡ filter (may_be_due moment.now.zone.now moment.now.time) schedules.now) }
{
    let mut found = Vec::new(alloc);
    for schedule in schedules {
        if due(schedule, None, moment.time, moment.civil) {
            found.push(schedule)?;
        }
    }
    Ok(found)
}

fn push_client(
    alloc: Global,
    moment: &Moment<'_>,
    policy: &Name,
    client: &Name,
    schedules: &[&Schedule],
    lines: &mut Vec<DueBackup>,
) -> Result<(), NoMemory>
    ensures { OnOk result (lines.new.items ≡ lines.old.items ++ line_of policy.now client.now (foremost (filter (is_due_for moment.now.zone.now moment.now.images moment.now.time policy.now client.now) (map (λ s. s.now) schedules.now)))) }
{
    if let Some(schedule) = foremost_due(alloc, moment, policy, client, schedules)? {
        lines.push(DueBackup {
            policy: policy.copy(alloc)?,
            client: client.copy(alloc)?,
            schedule: schedule.name.copy(alloc)?,
        })?;
    }
    Ok(())
}

// Of these schedules the one under which the client is due.
fn foremost_due<'a>(
    alloc: Global,
    moment: &Moment<'_>,
    policy: &Name,
    client: &Name,
    schedules: &[&'a Schedule],
) -> Result<Option<&'a Schedule>, NoMemory>
    ensures { IfOk result (λ o. option_map (λ s. s.now) o ≡ foremost (filter (is_due_for moment.now.zone.now moment.now.images moment.now.time policy.now client.now) (map (λ s. s.now) schedules.now))) }
{
    let mut found = None;
    for schedule in schedules {
        if is_due_for(alloc, moment, policy, client, schedule)? {
            found = Some(foremost_of(found, *schedule));
        }
    }
    Ok(found)
}

fn is_due_for(
    alloc: Global,
    moment: &Moment<'_>,
    policy: &Name,
    client: &Name,
    schedule: &Schedule,
) -> Result<bool, NoMemory>
    ensures { IfOk result (λ is_due. is_due ≡ is_due_for moment.now.zone.now moment.now.images moment.now.time policy.now client.now schedule.now) }
{
    let time = moment.images.get(policy, client, &schedule.name);
    let last = last_in(alloc, moment.zone, time)?;
    Ok(due(schedule, last, moment.time, moment.civil))
}

fn last_in(alloc: Global, zone: &Zone, time: Option<u64>) -> Result<Option<Last>, NoMemory>
    requires { IfSome time (λ t. t ≤ last_moment) }
    ensures last { IfOk result (λ last. last ≡ last_in zone.now time) }
    ensures civil { IfOk result (λ last. ForSome last (λ l. IsCivil l.civil)) }
{
    match time {
        Some(time) => Ok(Some(Last {
            time,
            civil: zone.civil(alloc, time)?,
        })),
        None => Ok(None),
    }
}

// Of some due schedules' foremost and the next one, the foremost.
fn foremost_of<'a>(first: Option<&'a Schedule>, next: &'a Schedule) -> &'a Schedule
    ensures { result.now ≡ option_map_or (λ s. fore s.now next.now) first.entry next.now }
{
    match first {
        Some(first) if !goes_before(&next.mode, &first.mode) => first,
        _ => next,
    }
}

// Of two due schedules a calendar goes before a frequency, and a longer frequency before a shorter.
fn goes_before(mode: &Mode, other: &Mode) -> bool
    ensures { result ≡ mode_before mode.now other.now }
{
    match (mode, other) {
        (Mode::Calendar(_), Mode::Frequency(_)) => true,
        (Mode::Frequency(seconds), Mode::Frequency(other)) => other < seconds,
        (_, Mode::Calendar(_)) => false,
    }
}
