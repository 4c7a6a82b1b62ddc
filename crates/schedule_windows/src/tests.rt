ghost use Rattle.std.specs.Prelude.{◌≤◌, length, IfOk};
ghost use Rattle.schedule_windows.specs.Weeks.{spans};
ghost use Rattle.schedule_windows.specs.Zones.{IsCivil};

use crate::calendar::is_run_day;
use crate::{Civil, Zone, next_open};
use site_types::{CalendarItem, ListOf, Window, Windows};
use std::alloc::Global;
use std::test::Fail;

// A rule, a moment, and the day and the second that its clocks show, mostly at the second before a jump and at it.
// The values are those of Python 3.11: `time.tzset` with the rule as TZ, and `time.localtime`.
const CLOCKS: &str = "\
CET-1CEST,M3.5.0,M10.5.0/3 1711846799 19813 7199\n\
CET-1CEST,M3.5.0,M10.5.0/3 1711846800 19813 10800\n\
CET-1CEST,M3.5.0,M10.5.0/3 1729990799 20023 10799\n\
CET-1CEST,M3.5.0,M10.5.0/3 1729990800 20023 7200\n\
CET-1CEST,M3.5.0,M10.5.0/3 250000000000 2893518 48400\n\
AEST-10AEDT,M10.1.0,M4.1.0/3 1712419199 19820 10799\n\
AEST-10AEDT,M10.1.0,M4.1.0/3 1712419200 19820 7200\n\
AEST-10AEDT,M10.1.0,M4.1.0/3 1728144000 20002 10800\n\
<-02>2<-01>,M3.5.0/-1,M10.5.0/0 1711846799 19812 82799\n\
<-02>2<-01>,M3.5.0/-1,M10.5.0/0 1711846800 19813 0\n\
IST-2IDT,M3.4.4/26,M10.5.0 1711670400 19811 10800\n\
XXX3:30YYY,J60/2,300/4:15 1709271000 19783 10800\n\
XXX3:30YYY,J60/2,300/4:15 1730011500 20023 11700\n\
AAA24:59:59 0 -2 82801";

fn rule(alloc: Global, text: &str) -> Result<Zone, Fail> {
    Ok(Zone::rule(alloc, text)?.ok_or("a rule")?)
}

fn civil(alloc: Global, zone: &Zone, moment: u64) -> Result<Civil, Fail> {
    if moment > 250_000_000_000 {
        return Err("a late moment")?;
    }
    Ok(zone.civil(alloc, moment)?)
}

#[test]
fn clocks_show_what_the_c_library_shows(rt: HostRuntime) -> Result<(), Fail> {
    for row in CLOCKS.lines() {
        let mut words = row.split_whitespace();
        let zone = rule(rt.alloc(), words.next().ok_or("a rule")?)?;
        let moment = words.next().ok_or("a moment")?.parse::<u64>()?;
        let day = words.next().ok_or("a day")?.parse::<i64>()?;
        let second = words.next().ok_or("a second")?.parse::<u32>()?;
        let civil = civil(rt.alloc(), &zone, moment)?;
        assert_eq!(rt; civil.day, day, "{row}");
        assert_eq!(rt; civil.second, second, "{row}");
    }
    Ok(())
}

// The window of a Thursday evening, 22:00:00 for four hours.
fn thursday(alloc: Global) -> Result<Windows, Fail>
    ensures { IfOk result (λ w. length (spans w) ≤ 28) }
{
    let window = Window::new(4, 79_200, 14_400).ok_or("a window")?;
    let mut list = ListOf::new(alloc);
    list.push(window)?;
    if list.as_slice().len() > 28 {
        return Err("too many windows")?;
    }
    Ok(Windows::Listed(list))
}

#[test]
fn a_window_opens_next(rt: HostRuntime) -> Result<(), Fail> {
    let alloc = rt.alloc();
    let east = Zone::fixed(7_200).ok_or("an offset")?;
    let next = next_open(alloc, &thursday(alloc)?, &east, 0)?;
    assert_eq!(rt; next, Some(72_000));
    Ok(())
}

#[test]
fn calendars_name_days(rt: HostRuntime) -> Result<(), Fail> {
    // The days are those of Python's `date(..).toordinal() - 719163`: 2000-02-29, 2100-02-28, 2024-03-31, and the Fridays
    // 2024-03-22 and 2024-04-26.
    let friday = |week| CalendarItem::Weekday { week, day: 5 };
    for (item, day) in [
        (CalendarItem::MonthDay(0), 11_016),
        (CalendarItem::MonthDay(0), 47_540),
        (CalendarItem::MonthDay(31), 19_813),
        (friday(4), 19_804),
        (friday(5), 19_839),
    ] {
        assert!(rt; is_run_day(&[item], day), "{item:?} on {day}");
    }
    Ok(())
}
