ghost use Rattle.std.specs.Prelude.{◌≡◌, ◌<◌, pos, neg_ℤ};
ghost use Rattle.std.specs.List.{list_any};
ghost use Rattle.jiff_core.specs.Calendar.{IsBetween};
ghost use Rattle.schedule_windows.specs.RunDays.{is_date, is_in_week, is_month_day, names, excludes, is_run_day, date_of, year_month_day};

use crate::week::weekday_of;
use jiff_core::civil::{self, Date};
use site_types::{CalendarItem, Day};

// Whether some item names the day and none excludes it.
pub(crate) fn is_run_day(items: &[CalendarItem], day: i64) -> bool
    requires { IsBetween (neg_ℤ (pos 1_000)) (pos 2_932_896) day }
    ensures { result ≡ is_run_day items.now day }
{
    let date = date_of(day);
    is_named(items, date, weekday_of(day)) && !is_excluded(items, date)
}

// The date so many days after 1970-01-01.
fn date_of(day: i64) -> Date
    requires { IsBetween (neg_ℤ (pos 1_000)) (pos 2_932_896) day }
    ensures { year_month_day result ≡ date_of day }
{
    Date::from_days_since_min((day + 4_371_587) as u32)
}

fn is_named(items: &[CalendarItem], date: Date, weekday: u8) -> bool
    ensures { result ≡ list_any (names (year_month_day date) weekday) items.now }
{
    items.iter().any(|item| names(*item, date, weekday))
}

fn is_excluded(items: &[CalendarItem], date: Date) -> bool
    ensures { result ≡ list_any (excludes (year_month_day date)) items.now }
{
    items.iter().any(|item| excludes(*item, date))
}

fn names(item: CalendarItem, date: Date, weekday: u8) -> bool
    ensures { result ≡ names (year_month_day date) weekday item }
{
    match item {
        CalendarItem::Date(day) => is_date(date, day),
        CalendarItem::Weekday { week, day } => weekday == day && is_in_week(date, week),
        CalendarItem::MonthDay(number) => is_month_day(date, number),
        CalendarItem::Exclude(_) => false,
    }
}

fn excludes(item: CalendarItem, date: Date) -> bool
    ensures { result ≡ excludes (year_month_day date) item }
{
    match item {
        CalendarItem::Exclude(day) => is_date(date, day),
        _ => false,
    }
}

fn is_date(date: Date, day: Day) -> bool
    ensures { result ≡ is_date (year_month_day date) day }
{
    date.year as i32 == day.year() as i32 && date.month == day.month() && date.day == day.day()
}

// Whether the date lies in its month's n-th seven days, in the last seven for 5, or in any for 0.
fn is_in_week(date: Date, week: u8) -> bool
    ensures { result ≡ is_in_week (year_month_day date) week }
{
    match week {
        0 => true,
        5 => civil::days_in_month(date.year, date.month) < date.day + 7,
        _ => (date.day + 6) / 7 == week,
    }
}

// Whether it is its month's n-th day, or the last for 0.
fn is_month_day(date: Date, number: u8) -> bool
    ensures { result ≡ is_month_day (year_month_day date) number }
{
    if number == 0 {
        return date.day == civil::days_in_month(date.year, date.month);
    }
    date.day == number
}
