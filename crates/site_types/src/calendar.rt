ghost use Rattle.std.specs.Prelude.{◌≡◌, true, false, MatchOption};
ghost use Rattle.site_types.specs.Dates.{is_leap, days_in_month, is_date};

/// A date from 1970-01-01 to 9891-12-31.
#[derive(Clone, Copy, Debug)]
pub struct Day {
    year: u16,
    month: u8,
    day: u8,
    ghost valid: { is_date year month day ≡ true },
}

impl Day {
    /// A date, and None exactly where there is none of this year, month and day.
    pub fn new(year: u16, month: u8, day: u8) -> Option<Day>
        ensures { MatchOption result (is_date year month day ≡ false) (λ d. (d.year ≡ year) × (d.month ≡ month) × (d.day ≡ day)) }
    {
        if is_date(year, month, day) {
            return Some(Day { year, month, day });
        }
        None
    }

    pub fn year(&self) -> u16
        ensures { result ≡ self.now.year }
    {
        self.year
    }

    pub fn month(&self) -> u8
        ensures { result ≡ self.now.month }
    {
        self.month
    }

    pub fn day(&self) -> u8
        ensures value { result ≡ self.now.day }
        ensures valid { is_date self.now.year self.now.month self.now.day ≡ true }
    {
        self.day
    }
}

fn is_leap(year: u16) -> bool
    ensures { result ≡ is_leap year }
{
    (year % 4 == 0 && year % 100 != 0) || year % 400 == 0
}

fn days_in_month(year: u16, month: u8) -> u8
    ensures { result ≡ days_in_month year month }
{
    if month == 2 {
        return if is_leap(year) { 29 } else { 28 };
    }
    if month == 4 || month == 6 || month == 9 || month == 11 {
        return 30;
    }
    31
}

fn is_date(year: u16, month: u8, day: u8) -> bool
    ensures { result ≡ is_date year month day }
{
    1970 <= year
        && year <= 9891
        && 1 <= month
        && month <= 12
        && 1 <= day
        && day <= days_in_month(year, month)
}

/// What a calendar names, or leaves out.
#[derive(Clone, Copy, Debug)]
pub enum CalendarItem {
    Date(Day),
    /// A weekday (0 is Sunday): every one with week 0, the first to fourth of each month with weeks 1 to 4, and the last with
    /// week 5.
    Weekday { week: u8, day: u8 },
    /// A day of each month, and with 0 its last day.
    MonthDay(u8),
    Exclude(Day),
}
