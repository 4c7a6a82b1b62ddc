ghost use Rattle.std.specs.Prelude.{◌≡◌, ◌<◌, pos, neg_ℤ};
ghost use Rattle.std.specs.Option.{ForSome};
ghost use Rattle.jiff_core.specs.Calendar.{IsBetween};
ghost use Rattle.schedule_windows.specs.Schedules.{has_passed, is_before, comes_round, is_due_in, is_due};
ghost use Rattle.schedule_windows.specs.Zones.{IsCivil};

use crate::Civil;
use crate::calendar::is_run_day;
use crate::civil::civil_count;
use crate::week::{WeekSpan, span_at, span_count, start_if_open};
use site_types::{Mode, Schedule};

/// The latest image of a schedule for a client: its time in seconds since 1970-01-01T00:00:00Z, and what the zone's clock
/// showed then.
#[derive(Clone, Copy, Debug)]
pub struct Last {
    pub time: u64,
    pub civil: Civil,
}

/// Whether a schedule is due at a moment, in seconds since 1970-01-01T00:00:00Z, at which the zone's clock shows `now`.
/// It takes no memory.
pub fn due(schedule: &Schedule, last: Option<Last>, moment: u64, now: Civil) -> bool
    requires civil { IsCivil now }
    requires last_civil { ForSome last (λ l. IsCivil l.civil) }
    ensures { result ≡ is_due schedule.now last moment now }
{
    for index in 0..span_count(&schedule.windows) {
        if is_due_in(
            schedule,
            last,
            moment,
            now,
            span_at(&schedule.windows, index),
        ) {
            return true;
        }
    }
    false
}

// Whether it is due in this one of its windows.
fn is_due_in(
    schedule: &Schedule,
    last: Option<Last>,
    moment: u64,
    now: Civil,
    span: WeekSpan,
) -> bool
    requires opens { span.opens < 604_800 }
    requires civil { IsCivil now }
    requires last_civil { ForSome last (λ l. IsCivil l.civil) }
    ensures { result ≡ is_due_in schedule.now last moment now span }
{
    match start_if_open(span, now) {
        Some(started) => comes_round(&schedule.mode, last, moment, started),
        None => false,
    }
}

// Whether it comes round in a window that opened at this civil second.
fn comes_round(mode: &Mode, last: Option<Last>, moment: u64, started: i64) -> bool
    requires start { IsBetween (neg_ℤ (pos 4_000_000)) (pos 250_600_000_000) started }
    requires last_civil { ForSome last (λ l. IsCivil l.civil) }
    ensures { result ≡ comes_round mode.now last moment started }
{
    match mode {
        Mode::Frequency(seconds) => has_passed(last, *seconds, moment),
        Mode::Calendar(items) => {
            is_run_day(items.as_slice(), started.div_euclid(86_400)) && is_before(last, started)
        }
    }
}

fn has_passed(last: Option<Last>, seconds: u64, moment: u64) -> bool
    ensures { result ≡ has_passed last seconds moment }
{
    match last {
        None => true,
        Some(last) => last.time <= moment && seconds <= moment - last.time,
    }
}

fn is_before(last: Option<Last>, started: i64) -> bool
    requires { ForSome last (λ l. IsCivil l.civil) }
    ensures { result ≡ is_before last started }
{
    match last {
        None => true,
        Some(last) => civil_count(last.civil) < started,
    }
}
