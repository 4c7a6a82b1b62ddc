ghost use Rattle.std.specs.Prelude.{◌≡◌, ◌<◌, ◌≤◌, MatchOption};

use crate::ListOf;

/// A time of the week at which jobs may start: a weekday, the second of that day at which it opens, and its length in
/// seconds. It may pass midnight.
#[derive(Clone, Copy, Debug)]
pub struct Window {
    weekday: u8,
    start: u32,
    length: u32,
    ghost weekday_is: { weekday < 7 },
    ghost start_is: { start < 86400 },
    ghost length_is: { 1 ≤ length },
    ghost at_most_a_week: { length ≤ 604800 },
}

impl Window {
    /// A window, and None exactly where there is no such weekday (0 is Sunday), the day has no such second, or the length
    /// isn't from 1 to 604,800.
    pub fn new(weekday: u8, start: u32, length: u32) -> Option<Window>
        ensures { MatchOption result (¬ ((weekday < 7) × (start < 86400) × (1 ≤ length) × (length ≤ 604800))) (λ w. (w.weekday ≡ weekday) × (w.start ≡ start) × (w.length ≡ length)) }
    {
        if weekday < 7 && start < 86_400 && (1..=604_800).contains(&length) {
            return Some(Window {
                weekday,
                start,
                length,
            });
        }
        None
    }

    /// The weekday on which it opens. 0 is Sunday.
    pub fn weekday(&self) -> u8
        ensures value { result ≡ self.now.weekday }
        ensures range { result < 7 }
    {
        self.weekday
    }

    /// The second of that day at which it opens.
    pub fn start(&self) -> u32
        ensures value { result ≡ self.now.start }
        ensures range { result < 86400 }
    {
        self.start
    }

    /// Its length in seconds.
    pub fn length(&self) -> u32
        ensures value { result ≡ self.now.length }
        ensures at_least { 1 ≤ result }
        ensures at_most { result ≤ 604800 }
    {
        self.length
    }
}

/// The windows in which jobs may start.
#[derive(Debug, Drop)]
pub enum Windows {
    /// One for each weekday, a whole day long.
    Always,
    Listed(ListOf<Window>),
}
