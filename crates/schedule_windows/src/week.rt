ghost use Rattle.std.specs.Prelude.{◌≡◌, ◌<◌, ◌≤◌, pos, neg_ℤ, IfSome, Some, length, slice_get, ◌*◌};
ghost use Rattle.std.specs.List.{list_any};
ghost use Rattle.jiff_core.specs.Calendar.{IsBetween};
ghost use Rattle.schedule_windows.specs.Weeks.{spans, window_span, weekday_of, second_of_week, since, is_open, start_if_open, first_open};
ghost use Rattle.schedule_windows.specs.Zones.{IsCivil};

use crate::Civil;
use crate::civil::civil_count;
use site_types::{Window, Windows};

/// The first window that is open.
#[derive(Clone, Copy, Debug)]
pub struct Opening {
    /// Its place among the windows, from 0.
    pub window: u32,
    /// When it opened, in seconds from 1970-01-01T00:00:00 on the zone's own clock.
    pub started: i64,
}

// A part of each week: the second of the week at which it opens (a week begins as Sunday does), and its length in seconds.
#[derive(Clone, Copy, Debug)]
pub(crate) struct WeekSpan {
    pub opens: u32,
    pub length: u32,
}

/// The first window that is open at a civil time, and None exactly where none is. It takes no memory.
pub fn open_at(windows: &Windows, now: Civil) -> Option<Opening>
    requires civil { IsCivil now }
    requires counted { length (spans windows.now) < 4_294_967_296 }
    ensures { result ≡ first_open 0 now (spans windows.now) }
{
    for index in 0..span_count(windows) {
        if let Some(started) = start_if_open(span_at(windows, index), now) {
            return Some(Opening {
                window: index as u32,
                started,
            });
        }
    }
    None
}

/// One of the windows is open at a civil time.
#[tactic(auto, using(crate::proofs::Walks::any_at, crate::proofs::Walks::any_neither))]
pub fn is_any_open(windows: &Windows, now: Civil) -> bool
    requires { IsCivil now }
    ensures { result ≡ list_any (is_open now) (spans windows.now) }
{
    for index in 0..span_count(windows) {
        if is_span_open(span_at(windows, index), now) {
            return true;
        }
    }
    false
}

fn is_span_open(span: WeekSpan, now: Civil) -> bool
    requires opens { span.opens < 604_800 }
    requires civil { IsCivil now }
    ensures { result ≡ is_open now span }
{
    since(span, second_of_week(now)) < span.length
}

// The civil second at which a window opened that is open now.
pub(crate) fn start_if_open(span: WeekSpan, now: Civil) -> Option<i64>
    requires opens { span.opens < 604_800 }
    requires civil { IsCivil now }
    ensures value { result ≡ start_if_open now span }
    ensures range { IfSome result (λ s. IsBetween (neg_ℤ (pos 4_000_000)) (pos 250_600_000_000) s) }
{
    let ago = since(span, second_of_week(now));
    if ago < span.length {
        return Some(civil_count(now) - ago as i64);
    }
    None
}

pub(crate) fn span_count(windows: &Windows) -> usize
    ensures { result ≡ length (spans windows.now) }
{
    match windows {
        Windows::Always => 7,
        Windows::Listed(list) => list.as_slice().len(),
    }
}

pub(crate) fn span_at(windows: &Windows, index: usize) -> WeekSpan
    requires { index < length (spans windows.now) }
    ensures value { slice_get (spans windows.now) index ≡ Some result }
    ensures opens { result.opens < 604_800 }
    ensures length { 1 ≤ result.length }
{
    match windows {
        Windows::Always => whole_day(index),
        Windows::Listed(list) => window_span(&list.as_slice()[index]),
    }
}

// The window of a weekday, a whole day long.
fn whole_day(weekday: usize) -> WeekSpan
    requires { weekday < 7 }
    ensures opens { result.opens ≡ weekday * 86_400 }
    ensures length { result.length ≡ 86_400 }
{
    WeekSpan {
        opens: weekday as u32 * 86_400,
        length: 86_400,
    }
}

fn window_span(window: &Window) -> WeekSpan
    ensures value { result ≡ window_span window.now }
    ensures opens { result.opens < 604_800 }
    ensures length { 1 ≤ result.length }
{
    WeekSpan {
        opens: window.weekday() as u32 * 86_400 + window.start(),
        length: window.length(),
    }
}

// The weekday of a day since 1970-01-01. 0 is Sunday.
pub(crate) fn weekday_of(day: i64) -> u8
    requires { IsBetween (neg_ℤ (pos 1_000)) (pos 3_000_000) day }
    ensures value { result ≡ weekday_of day }
    ensures range { result < 7 }
{
    (day + 4).rem_euclid(7) as u8
}

fn second_of_week(now: Civil) -> u32
    requires { IsCivil now }
    ensures value { result ≡ second_of_week now }
    ensures range { result < 604_800 }
{
    weekday_of(now.day) as u32 * 86_400 + now.second
}

// How many seconds ago the window last opened.
pub(crate) fn since(span: WeekSpan, second: u32) -> u32
    requires opens { span.opens < 604_800 }
    requires second { second < 604_800 }
    ensures value { result ≡ since span second }
    ensures range { result < 604_800 }
{
    (second + 604_800 - span.opens) % 604_800
}
