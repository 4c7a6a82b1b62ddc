ghost use Rattle.std.specs.Prelude.{◌≡◌};
ghost use Rattle.site_types.specs.Weekdays.{weekday_name, weekday_named};

/// The weekday of a name of three letters. 0 is Sunday.
pub fn read_weekday(name: &[u8]) -> Option<u8>
    ensures { result ≡ weekday_named name.now }
{
    match name {
        b"sun" => Some(0),
        b"mon" => Some(1),
        b"tue" => Some(2),
        b"wed" => Some(3),
        b"thu" => Some(4),
        b"fri" => Some(5),
        b"sat" => Some(6),
        _ => None,
    }
}

// The name of a weekday. 0 is Sunday.
pub fn weekday_name(day: u8) -> &'static [u8]
    ensures { result.now ≡ weekday_name day }
{
    match day {
        0 => b"sun",
        1 => b"mon",
        2 => b"tue",
        3 => b"wed",
        4 => b"thu",
        5 => b"fri",
        _ => b"sat",
    }
}
