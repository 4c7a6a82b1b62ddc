// Calendars, as they stand in a word.
ghost use Rattle.std.specs.Prelude.{◌≡◌, ◌∷◌, ◌++◌, IfOk, OnOk};
ghost use Rattle.site_types.specs.Calendars.{week_of, weekday_item_of, month_day_of, date_of, day_of, calendar_of};
ghost use Rattle.site_types.specs.CalendarTexts.{four_digits, day_text, week_text, month_day_text};
ghost use Rattle.site_types.specs.Weekdays.{weekday_name};

use crate::digits::{push_two_digits, read_digits};
use crate::joined::{JoinedItem, Written, read_joined};
use crate::weekday::{read_weekday, weekday_name};
use crate::wording::push_number;
use crate::{CalendarItem, Day, ListOf, NoMemory, read_number};
use std::alloc::Global;

const MOST_ITEMS: usize = 64;

/// The items of a calendar, of which there are from 1 to 64, joined by `+`. None exactly where the text spells no calendar.
pub fn read_calendar(alloc: Global, text: &[u8]) -> Result<Option<ListOf<CalendarItem>>, NoMemory>
    ensures { IfOk result (λ o. o ≡ calendar_of text.now) }
{
    read_joined(alloc, text, MOST_ITEMS)
}

impl JoinedItem for CalendarItem {
    ghost use Rattle.site_types.specs.Calendars.{calendar_item_of};

    ghost spelled = { calendar_item_of };

    fn read(text: &[u8]) -> Option<CalendarItem> {
        match text {
            [b'd', date @ ..] => Some(CalendarItem::Date(read_day(date)?)),
            [b'x', date @ ..] => Some(CalendarItem::Exclude(read_day(date)?)),
            [b'w', weekday @ ..] => read_weekday_item(weekday),
            [b'm', day @ ..] => Some(CalendarItem::MonthDay(read_month_day(day)?)),
            _ => None,
        }
    }
}

fn read_weekday_item(text: &[u8]) -> Option<CalendarItem>
    ensures { result ≡ weekday_item_of text.now }
{
    let (week, name) = text.split_first()?;
    Some(CalendarItem::Weekday {
        week: read_week(*week)?,
        day: read_weekday(name)?,
    })
}

fn read_week(byte: u8) -> Option<u8>
    ensures { result ≡ week_of byte }
{
    match byte {
        b'L' => Some(5),
        b'0'..=b'4' => Some(byte - b'0'),
        _ => None,
    }
}

fn read_month_day(text: &[u8]) -> Option<u8>
    ensures { result ≡ month_day_of text.now }
{
    match text {
        b"L" => Some(0),
        _ => match read_number(text, 31)? {
            0 => None,
            day => u8::try_from(day).ok(),
        },
    }
}

fn read_day(text: &[u8]) -> Option<Day>
    ensures { result ≡ day_of text.now }
{
    if text.len() != 10 || text[4] != b'-' || text[7] != b'-' {
        return None;
    }
    day_named(
        read_digits(&text[..4])?,
        read_digits(&text[5..7])?,
        read_digits(&text[8..])?,
    )
}

fn day_named(year: u16, month: u16, day: u16) -> Option<Day>
    ensures { result ≡ date_of year month day }
{
    Day::new(year, u8::try_from(month).ok()?, u8::try_from(day).ok()?)
}

fn push_four_digits(text: &mut Vec<u8>, number: u16) -> Result<(), NoMemory>
    ensures { OnOk result (text.new.items ≡ text.old.items ++ four_digits number) }
{
    push_two_digits(text, u32::from(number / 100))?;
    push_two_digits(text, u32::from(number % 100))
}

fn push_day(text: &mut Vec<u8>, day: &Day) -> Result<(), NoMemory>
    ensures { OnOk result (text.new.items ≡ text.old.items ++ day_text day.now) }
{
    push_four_digits(text, day.year())?;
    text.push(b'-')?;
    push_two_digits(text, u32::from(day.month()))?;
    text.push(b'-')?;
    push_two_digits(text, u32::from(day.day()))
}

fn week_text(week: u8) -> u8
    ensures { result ≡ week_text week }
{
    match week {
        5 => b'L',
        _ => b'0' + week % 10,
    }
}

fn push_month_day(text: &mut Vec<u8>, day: u8) -> Result<(), NoMemory>
    ensures { OnOk result (text.new.items ≡ text.old.items ++ month_day_text day) }
{
    match day {
        0 => text.extend_from_slice(b"L"),
        _ => push_number(text, u64::from(day)),
    }
}

fn push_weekdays(text: &mut Vec<u8>, week: u8, day: u8) -> Result<(), NoMemory>
    ensures { OnOk result (text.new.items ≡ text.old.items ++ week_text week ∷ weekday_name day) }
{
    text.push(week_text(week))?;
    text.extend_from_slice(weekday_name(day))
}

impl Written for CalendarItem {
    ghost use Rattle.site_types.specs.CalendarTexts.{item_text};

    ghost written = { item_text };

    fn push_to(&self, text: &mut Vec<u8>) -> Result<(), NoMemory> {
        match self {
            CalendarItem::Date(day) => {
                text.push(b'd')?;
                push_day(text, day)
            }
            CalendarItem::Weekday { week, day } => {
                text.push(b'w')?;
                push_weekdays(text, *week, *day)
            }
            CalendarItem::MonthDay(day) => {
                text.push(b'm')?;
                push_month_day(text, *day)
            }
            CalendarItem::Exclude(day) => {
                text.push(b'x')?;
                push_day(text, day)
            }
        }
    }
}
