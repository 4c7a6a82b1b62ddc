//! What a POSIX rule gives from one moment to the next.
ghost use Rattle.std.specs.Prelude.{◌≡◌, ◌<◌, ◌≤◌, ℕ, pos, true};
ghost use Rattle.jiff_core.specs.Calendar.{IsYear, IsWithin};
ghost use Rattle.jiff_core.specs.Timestamp.{nanos_of_seconds};
ghost use Rattle.jiff_tz.specs.Year.{year_of_nanos};
ghost use Rattle.schedule_windows.specs.Zones.{rule_offset_at};
ghost use Rattle.schedule_windows.specs.Steady.{IsSteady};

use jiff_core::civil::Date;
use jiff_core::{Offset, Timestamp};
use jiff_tz::posix;

// How many seconds a clock is ahead of UTC at a moment.
pub(crate) fn seconds_at(rule: &posix::TimeZone, moment: u64) -> i32
    requires { moment ≤ 250_001_209_600 }
    ensures value { result ≡ rule_offset_at rule.now moment }
    ensures range { IsWithin 93_599 result }
{
    rule.to_offset(instant(moment)).seconds
}

// A later moment, up to the end, before which the offset stays as it is at the first: it stays the same within a year, on a
// clock at UTC, up to the next transition.
pub(crate) fn same_offset_until(rule: &posix::TimeZone, at: u64, end: u64) -> u64
    requires before { at < end }
    requires limit { end ≤ 250_001_209_600 }
    ensures range { (at < result) × (result ≤ end) }
    ensures same { (k : ℕ) → at ≤ k → k < result → rule_offset_at rule.now k ≡ rule_offset_at rule.now at }
{
    if rule.dst.is_none() {
        return end;
    }
    let until = likely_change(rule, at, end).clamp(at + 1, end);
    if is_steady(rule, at, until - 1) {
        return until;
    }
    at + 1
}

// The first moment after this one, up to the end, at which the year or the offset is likely to change. Whoever takes it
// tests that nothing changes before it.
fn likely_change(rule: &posix::TimeZone, at: u64, end: u64) -> u64
    requires { (at ≤ 250_001_209_600) × (end ≤ 250_001_209_600) }
{
    let mut until = end.min(next_year_start(at));
    if let Some(transition) = rule.next_transition(instant(at)) {
        let second = transition.timestamp.nanosecond / 1_000_000_000;
        if 0 <= second && second < until as i128 {
            until = second as u64;
        }
    }
    until
}

// Whether the last moment lies in the year of the first, with no transition after the first and up to it.
fn is_steady(rule: &posix::TimeZone, first: u64, last: u64) -> bool
    requires order { first ≤ last }
    requires limit { last ≤ 250_001_209_600 }
    ensures { result ≡ true → IsSteady rule.now first last }
{
    let Some(transition) = rule.next_transition(instant(first)) else {
        return false;
    };
    year_of(first) == year_of(last) && instant(last).nanosecond < transition.timestamp.nanosecond
}

// The year of a moment, on a clock at UTC.
fn year_of(moment: u64) -> i16
    requires { moment ≤ 250_001_209_600 }
    ensures value { result ≡ year_of_nanos (nanos_of_seconds (pos moment)) }
    ensures range { IsYear result }
{
    Offset::UTC.to_datetime(instant(moment)).date.year
}

// The moment at which the next year begins, on a clock at UTC.
fn next_year_start(moment: u64) -> u64
    requires { moment ≤ 250_001_209_600 }
{
    let year = year_of(moment).saturating_add(1).clamp(1970, 9999);
    Date::constrain(year, 1, 1).to_unix_epoch_day().max(0) as u64 * 86_400
}

// A moment as an instant.
fn instant(moment: u64) -> Timestamp
    requires { moment ≤ 250_001_209_600 }
    ensures { result.nanosecond ≡ nanos_of_seconds (pos moment) }
{
    Timestamp {
        nanosecond: moment as i128 * 1_000_000_000,
    }
}
