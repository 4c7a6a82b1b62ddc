// A rule is read with `jiff_tz::posix::TimeZone::parse`, which is what `jiff` calls for it, with the same contract.
ghost use Rattle.std.specs.Prelude.{◌≡◌, ◌<◌, ◌≤◌, ℕ, IsOk, IsSome, IfOk, None, option_map, MatchOption};
ghost use Rattle.jiff_core.specs.Calendar.{IsWithin};
ghost use Rattle.jiff_tz.specs.PosixReader.{read_whole};
ghost use Rattle.schedule_windows.specs.Zones.{IsCivil, civil_at, offset_at, fixed_seconds, rule_text, FixedOffset, PosixRule};

use crate::civil::civil_of;
use crate::{Civil, rule};
use jiff_tz::posix;
use site_types::{Copied, NoMemory, Text};
use std::alloc::Global;
use std::marker::Model;

#[derive(Debug, Drop)]
enum Source {
    Fixed(i32),
    Rule { text: Text, read: posix::TimeZone },
}

/// A time zone: one offset from UTC, or a POSIX rule with daylight saving time (POSIX, section 8.3, the variable TZ).
#[derive(Debug, Drop)]
pub struct Zone {
    source: Source,
}

impl Model for Zone {
    ghost use Rattle.schedule_windows.specs.Sources.{zone_of, IsRead};
    ghost use Rattle.schedule_windows.specs.Zones.{ZoneOf};

    ghost Value = { ZoneOf };

    ghost view = { λ z. zone_of z.source };

    ghost invariant = { λ z. IsRead z.source };
}

impl Copied for Zone {
    fn copy(&self, alloc: Global) -> Result<Zone, NoMemory> {
        let source = match &self.source {
            Source::Fixed(seconds) => Source::Fixed(*seconds),
            Source::Rule { text, read } => Source::Rule {
                text: text.copy(alloc)?,
                read: *read,
            },
        };
        Ok(Zone { source })
    }
}

impl Zone {
    /// The zone whose clocks are always so many seconds ahead of UTC, and None exactly where that is a day or more either way.
    pub fn fixed(seconds: i32) -> Option<Zone>
        ensures { MatchOption result (¬ (IsWithin 86_399 seconds)) (λ z. (z ≡ FixedOffset seconds) × IsWithin 86_399 seconds) }
    {
        if -86_400 < seconds && seconds < 86_400 {
            return Some(Zone {
                source: Source::Fixed(seconds),
            });
        }
        None
    }

    /// The zone of a POSIX rule, as `CET-1CEST,M3.5.0,M10.5.0/3`, and None exactly where `jiff` reads the text as no rule. The
    /// one error is that no memory was left for the text.
    pub fn rule(alloc: Global, text: &str) -> Result<Option<Zone>, NoMemory>
        ensures { IfOk result (λ o. MatchOption o (read_whole text.now ≡ None) (λ z. (z ≡ PosixRule text.now) × IsSome (read_whole text.now))) }
    {
        let Ok(read) = posix::TimeZone::parse(text.as_bytes()) else {
            return Ok(None);
        };
        Ok(Some(Zone {
            source: Source::Rule {
                text: Text::new(alloc, text.as_bytes())?,
                read,
            },
        }))
    }

    /// The seconds that a zone of one offset is ahead of UTC. None exactly for a rule.
    pub fn offset(&self) -> Option<i32>
        ensures { result ≡ fixed_seconds self.now }
    {
        match &self.source {
            Source::Fixed(seconds) => Some(*seconds),
            Source::Rule { .. } => None,
        }
    }

    /// The text of a zone's rule. None exactly for one offset.
    pub fn rule_text(&self) -> Option<&[u8]>
        ensures { option_map (λ b. b.now) result ≡ rule_text self.now }
    {
        match &self.source {
            Source::Fixed(_) => None,
            Source::Rule { text, .. } => Some(text.bytes()),
        }
    }

    /// What the zone's clocks show at a moment, in seconds since 1970-01-01T00:00:00Z. It is answered without memory.
    pub fn civil(&self, _alloc: Global, moment: u64) -> Result<Civil, NoMemory>
        requires { moment ≤ 250_001_209_600 }
        ensures answers { IsOk result }
        ensures value { IfOk result (λ c. c ≡ civil_at self.now moment) }
        ensures range { IfOk result (λ c. IsCivil c) }
    {
        Ok(civil_of(moment as i64 + self.seconds_at(moment) as i64))
    }

    // How many seconds the clock is ahead of UTC.
    pub(crate) fn seconds_at(&self, moment: u64) -> i32
        requires { moment ≤ 250_001_209_600 }
        ensures value { result ≡ offset_at self.now moment }
        ensures range { IsWithin 93_599 result }
    {
        match &self.source {
            Source::Fixed(seconds) => *seconds,
            Source::Rule { read, .. } => rule::seconds_at(read, moment),
        }
    }

    // A later moment, up to the end, before which the offset stays as it is at the first.
    pub(crate) fn same_offset_until(&self, at: u64, end: u64) -> u64
        requires before { at < end }
        requires limit { end ≤ 250_001_209_600 }
        ensures range { (at < result) × (result ≤ end) }
        ensures same { (k : ℕ) → at ≤ k → k < result → offset_at self.now k ≡ offset_at self.now at }
    {
        match &self.source {
            Source::Fixed(_) => end,
            Source::Rule { read, .. } => rule::same_offset_until(read, at, end),
        }
    }
}
