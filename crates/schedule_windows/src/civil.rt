ghost use Rattle.std.specs.Prelude.{◌≡◌, pos, neg_ℤ};
ghost use Rattle.jiff_core.specs.Calendar.{IsBetween};
ghost use Rattle.schedule_windows.specs.Zones.{IsCivil, civil_of, civil_count};

/// What a clock shows: days since 1970-01-01, and seconds since the midnight that began the day.
#[derive(Clone, Copy, Debug)]
pub struct Civil {
    pub day: i64,
    pub second: u32,
}

// The civil time so many seconds after 1970-01-01T00:00:00.
pub(crate) fn civil_of(count: i64) -> Civil
    requires { IsBetween (neg_ℤ (pos 1_000_000)) (pos 250_500_000_000) count }
    ensures value { result ≡ civil_of count }
{
    Civil {
        day: count.div_euclid(86_400),
        second: count.rem_euclid(86_400) as u32,
    }
}

// Those seconds of a civil time.
pub(crate) fn civil_count(civil: Civil) -> i64
    requires { IsCivil civil }
    ensures value { result ≡ civil_count civil }
    ensures range { IsBetween (neg_ℤ (pos 2_600_000)) (pos 250_600_000_000) result }
{
    civil.day * 86_400 + civil.second as i64
}
