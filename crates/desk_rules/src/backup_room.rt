// The refusals of a backup by its policy, its schedule and its unit, in their order.
ghost use Rattle.std.specs.Prelude.{◌≡◌, ◌≤◌, ◌*◌, ◌+◌, [], ◌∷◌, Some, IfOk, not, is_none, max, nat_le, nat_lt, codes, unwrap_or, find, OnOk};
ghost use Rattle.std.specs.Option.{option_copied};
ghost use Rattle.site_types.specs.Limits.{last_moment};
ghost use Rattle.site_types.specs.declared.answer.Answer.TheVariants as answer;
ghost use Rattle.policy_book.specs.Lists.{named};
ghost use Rattle.policy_book.specs.Book.{schedule_name, unit_name};
ghost use Rattle.policy_book.specs.Changes.{is_full, last_of, pair_text};
ghost use Rattle.desk_model.specs.Backups.{backup_unit, is_waiting, latest_version, operations_in, schedule_chosen, unit_at, unit_of};
ghost use Rattle.desk_rules.specs.Asking.{asked_by};
ghost use Rattle.desk_rules.specs.Refusing.{Passes};
ghost use Rattle.desk_rules.specs.Seen.{room_under, seen};

use crate::NoMemory;
use crate::asked::BackupAsked;
use crate::refusal::Refusal;
use desk_model::Site;
use image_catalogue::Catalogue;
use policy_book::{Book, Policy, first_unit, pair_text};
use schedule_windows::{Zone, is_any_open};
use site_types::{Answer, Copied, Kind, LAST_MOMENT, Name, Schedule, Start, Text, Unit};
use slp_tree::Slp;
use std::alloc::Global;

// The length in bytes of the segments of the unit of a new vault.
const FIRST_SEGMENT: u32 = 131_072;

// The schedule under which the backup is made.
pub(crate) fn check_room<'a>(
    alloc: Global,
    site: &Site,
    images: &Catalogue,
    asked: &BackupAsked<'_>,
    policy: &'a Policy,
    moment: u64,
) -> Result<&'a Schedule, Refusal>
    requires { moment ≤ last_moment }
    ensures passes { Passes (room_under policy.now (asked_by asked.now) images.now moment (seen site.now images.now)) result }
    ensures schedule { IfOk result (λ s. schedule_chosen (asked_by asked.now).schedule policy.now ≡ Some s.now) }
    ensures time { IfOk result (λ s. last_of asked.now.client.now site.now.book + 1 ≤ last_moment) }
{
    let schedule = known_schedule(alloc, policy, asked)?;
    check_active(alloc, policy, asked)?;
    check_window(alloc, &site.zone, asked.start, schedule, moment)?;
    let unit = unit_of(alloc, &site.book, policy)?;
    check_mark(alloc, &unit, images.used(&unit.name))?;
    check_time(alloc, site.book.last_of(asked.client), moment)?;
    Ok(schedule)
}

fn known_schedule<'a>(
    alloc: Global,
    policy: &'a Policy,
    asked: &BackupAsked<'_>,
) -> Result<&'a Schedule, Refusal>
    ensures passes { Passes ((is_none (schedule_chosen (asked_by asked.now).schedule policy.now), answer.Unknown (pair_text asked.now.policy (unwrap_or (asked_by asked.now).schedule (codes "-")))) ∷ []) result }
    ensures schedule { IfOk result (λ s. schedule_chosen (asked_by asked.now).schedule policy.now ≡ Some s.now) }
{
    match schedule_chosen(asked.schedule, policy) {
        Some(schedule) => Ok(schedule),
        None => Err(Refusal::Answered(Answer::Unknown {
            name: pair_text(alloc, asked.policy.bytes(), schedule_text(asked.schedule))?,
        })),
    }
}

// The schedule of this name, or else the first full one.
fn schedule_chosen<'a>(schedule: Option<&Name>, policy: &'a Policy) -> Option<&'a Schedule>
    ensures { option_copied result ≡ schedule_chosen (option_copied schedule.entry) policy.now }
{
    match schedule {
        Some(name) => schedule_named(name, policy.schedules()),
        None => first_full(policy.schedules()),
    }
}

fn schedule_named<'a>(name: &Name, schedules: &'a [Schedule]) -> Option<&'a Schedule>
    ensures { option_copied result ≡ named schedule_name name.now schedules.now }
{
    schedules.iter().find(|schedule| schedule.name == *name)
}

fn first_full(schedules: &[Schedule]) -> Option<&Schedule>
    ensures { option_copied result ≡ find (λ s. is_full s.kind) schedules.now }
{
    schedules.iter().find(|schedule| is_full(schedule.kind))
}

fn is_full(kind: Kind) -> bool
    ensures { result ≡ is_full kind }
{
    matches!(kind, Kind::Full)
}

fn schedule_text<'a>(schedule: Option<&'a Name>) -> &'a [u8]
    ensures { result.now ≡ unwrap_or (option_copied schedule.entry) (codes "-") }
{
    match schedule {
        Some(name) => name.bytes(),
        None => b"-",
    }
}

fn check_active(alloc: Global, policy: &Policy, asked: &BackupAsked<'_>) -> Result<(), Refusal>
    ensures { Passes ((not policy.now.active, answer.Inactive asked.now.policy) ∷ []) result }
{
    if !policy.active() {
        return Err(Refusal::Answered(Answer::Inactive {
            name: Text::new(alloc, asked.policy.bytes())?,
        }));
    }
    Ok(())
}

// A scheduled backup waits for a window, a manual one doesn't.
fn check_window(
    alloc: Global,
    zone: &Zone,
    start: Start,
    schedule: &Schedule,
    moment: u64,
) -> Result<(), Refusal>
    requires { moment ≤ last_moment }
    ensures { Passes ((is_waiting start zone.now moment schedule.now.windows, answer.WindowClosed schedule.now.name) ∷ []) result }
{
    if matches!(start, Start::Manual) {
        return Ok(());
    }
    let now = zone.civil(alloc, moment)?;
    if !is_any_open(&schedule.windows, now) {
        return Err(Refusal::Answered(Answer::WindowClosed {
            name: Text::new(alloc, schedule.name.bytes())?,
        }));
    }
    Ok(())
}

// The unit to which backups under a policy go.
pub(crate) fn unit_of(alloc: Global, book: &Book, policy: &Policy) -> Result<Unit, NoMemory>
    ensures { IfOk result (λ u. u ≡ unit_at (backup_unit policy.now book.now) book.now) }
{
    match backup_unit(book, policy) {
        Some(unit) => unit.copy(alloc),
        None => first_unit(alloc),
    }
}

// That unit, where it is in the book.
fn backup_unit<'a>(book: &'a Book, policy: &Policy) -> Option<&'a Unit>
    ensures { option_copied result ≡ named unit_name (backup_unit policy.now book.now) book.now.units }
{
    let lifecycle = policy.lifecycle();
    unit_under(book, lifecycle, latest_version(book, lifecycle))
}

/// The length in bytes of the segments of the unit to which backups go under this version of a lifecycle; where that isn't there,
/// of those of the unit of a new vault.
pub fn segment_of(book: &Book, lifecycle: &Name, version: u16) -> u32
    ensures { result ≡ (unit_at (unit_of (operations_in lifecycle.now version book.now)) book.now).segment }
{
    match unit_under(book, lifecycle, version) {
        Some(unit) => unit.segment,
        None => FIRST_SEGMENT,
    }
}

// The unit of the first operation of a version of a lifecycle.
fn unit_under<'a>(book: &'a Book, lifecycle: &Name, version: u16) -> Option<&'a Unit>
    ensures { option_copied result ≡ named unit_name (unit_of (operations_in lifecycle.now version book.now)) book.now.units }
{
    unit_named(unit_name(book, lifecycle, version), book.units())
}

fn unit_named<'a>(name: &[u8], units: &'a [Unit]) -> Option<&'a Unit>
    ensures { option_copied result ≡ named unit_name name.now units.now }
{
    units.iter().find(|unit| unit.name.bytes() == name)
}

// The name of the unit of the first operation of a version of a lifecycle.
fn unit_name<'a>(book: &'a Book, lifecycle: &Name, version: u16) -> &'a [u8]
    ensures { result.now ≡ unit_of (operations_in lifecycle.now version book.now) }
{
    match book.lifecycles().find(lifecycle, version) {
        Some(slp) => first_unit_of(slp),
        None => b"",
    }
}

// The number of the latest version of a lifecycle, 0 for one that isn't there.
pub(crate) fn latest_version(book: &Book, lifecycle: &Name) -> u16
    ensures { result ≡ latest_version lifecycle.now book.now }
{
    book.lifecycles().latest(lifecycle).unwrap_or(0)
}

fn first_unit_of(slp: &Slp) -> &[u8]
    ensures { result.now ≡ unit_of slp.now.operations }
{
    match slp.operation(0) {
        Some(operation) => operation.unit.bytes(),
        None => b"",
    }
}

// So many times the capacity.
fn hundredths(mark: u8, capacity: u64) -> u128
    ensures { result ≡ mark * capacity }
{
    u128::from(mark) * u128::from(capacity)
}

// The high mark isn't reached.
fn check_mark(alloc: Global, unit: &Unit, held: u64) -> Result<(), Refusal>
    ensures { Passes ((nat_le (unit.now.high * unit.now.capacity) (held * 100), answer.AboveHigh unit.now.name held unit.now.capacity) ∷ []) result }
{
    if u128::from(held) * 100 >= hundredths(unit.high, unit.capacity) {
        return Err(Refusal::Answered(Answer::AboveHigh {
            unit: unit.name.copy(alloc)?,
            used: held,
            capacity: unit.capacity,
        }));
    }
    Ok(())
}

// The time of the backup isn't past the last moment.
fn check_time(alloc: Global, last: u64, moment: u64) -> Result<(), Refusal>
    requires { moment ≤ last_moment }
    ensures passes { Passes ((nat_lt last_moment (max moment (last + 1)), answer.TooMany (codes "time") last last_moment) ∷ []) result }
    ensures time { OnOk result (last + 1 ≤ last_moment) }
{
    if moment.max(last.saturating_add(1)) > LAST_MOMENT {
        return Err(Refusal::Answered(Answer::TooMany {
            kind: Text::new(alloc, b"time")?,
            count: last,
            limit: LAST_MOMENT,
        }));
    }
    Ok(())
}
