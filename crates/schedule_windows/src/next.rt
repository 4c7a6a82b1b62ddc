// The next opening is looked for in stretches in which the zone's offset stays the same. A stretch counts only where a test at
// run time shows that it lies in one year and before the rule's next jump, so the guess of its length needs no trust.
ghost use Rattle.std.specs.Prelude.{◌≡◌, ◌<◌, ◌≤◌, ◌+◌, ◌+ℤ◌, ℕ, pos, true, false, IsOk, IfOk};
ghost use Rattle.jiff_core.specs.Calendar.{IsWithin};
ghost use Rattle.schedule_windows.specs.Opens.{IsNextOpenIfAny, is_open_after, is_span_open};
ghost use Rattle.schedule_windows.specs.Weeks.{spans};

use crate::Zone;
use crate::week::{WeekSpan, since, span_at, span_count};
use site_types::{NoMemory, Windows};
use std::alloc::Global;

/// Two weeks, in seconds: how far ahead the next opening is looked for.
const HORIZON: u64 = 1_209_600;

// The seconds from the beginning of a week to that of 1970-01-01, a Thursday.
const THURSDAY: i64 = 345_600;

/// The least moment from this one on, and less than 1,209,600 seconds later, at which a window is open on the zone's clock.
/// None exactly where there is none. Moments are seconds since 1970-01-01T00:00:00Z. It is answered without memory.
pub fn next_open(
    _alloc: Global,
    windows: &Windows,
    zone: &Zone,
    moment: u64,
) -> Result<Option<u64>, NoMemory>
    requires { moment ≤ 250_000_000_000 }
    ensures answers { IsOk result }
    ensures value { IfOk result (IsNextOpenIfAny windows.now zone.now moment) }
{
    let end = moment + HORIZON;
    let mut at = moment;
    while at < end {
        let until = zone.same_offset_until(at, end);
        let wait = wait_within(windows, week_count(at, zone.seconds_at(at)), until - at);
        if wait < until - at {
            return Ok(Some(at + wait));
        }
        at = until;
    }
    Ok(None)
}

// The civil seconds at a moment from the beginning of the week of 1970-01-01 on.
fn week_count(moment: u64, offset: i32) -> u64
    requires moment { moment ≤ 250_001_209_600 }
    requires offset { IsWithin 93_599 offset }
    ensures value { pos result ≡ pos moment +ℤ offset +ℤ pos 345_600 }
    ensures range { result ≤ 300_000_000_000 }
{
    (moment as i64 + offset as i64 + THURSDAY) as u64
}

// The least number of seconds, below the limit, after which a window is open, and else the limit. Seconds are counted from
// the beginning of some week.
fn wait_within(windows: &Windows, count: u64, limit: u64) -> u64
    requires { count ≤ 300_000_000_000 }
    ensures range { result ≤ limit }
    ensures closed { (k : ℕ) → k < result → is_open_after (spans windows.now) (count + k) ≡ false }
    ensures open_then { result < limit → is_open_after (spans windows.now) (count + result) ≡ true }
{
    let mut least = limit;
    for index in 0..span_count(windows) {
        least = least.min(span_wait(span_at(windows, index), count));
    }
    least
}

// The same of one window.
fn span_wait(span: WeekSpan, count: u64) -> u64
    requires opens { span.opens < 604_800 }
    requires length { 1 ≤ span.length }
    ensures closed { (k : ℕ) → k < result → is_span_open (count + k) span ≡ false }
    ensures open_then { is_span_open (count + result) span ≡ true }
{
    let ago = since(span, (count % 604_800) as u32);
    if ago < span.length {
        return 0;
    }
    (604_800 - ago) as u64
}
