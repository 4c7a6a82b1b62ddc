// The zone that a request sets.
ghost use Rattle.std.specs.Prelude.{◌≡◌, Some, None, IfOk, option_map};
ghost use Rattle.std.specs.Option.{option_copied};
ghost use Rattle.jiff_core.specs.Calendar.{IsWithin};
ghost use Rattle.site_types.specs.Lines.{IsFormed};
ghost use Rattle.desk_model.specs.Settings.{zone_asked, zone_given, zone_set};
ghost use Rattle.desk_rules.specs.Zoned.{IsRule, IsZone, asked_seen};

use schedule_windows::Zone;
use site_types::{NoMemory, Request, Text};
use std::alloc::Global;

fn zone_of_rule(alloc: Global, rule: &Text) -> Result<Zone, NoMemory>
    requires { IsRule rule.now }
    ensures { IfOk result (λ zone. zone ≡ zone_given (Some rule.now) None) }
{
    let Ok(text) = std::str::from_utf8(rule.bytes()) else {
        unreachable!()
    };
    match Zone::rule(alloc, text)? {
        Some(zone) => Ok(zone),
        None => unreachable!(),
    }
}

// The zone of a rule, or else of an offset in seconds.
fn zone_given(alloc: Global, rule: Option<&Text>, offset: Option<i32>) -> Result<Zone, NoMemory>
    requires { IsZone (option_copied rule) offset }
    ensures { IfOk result (λ zone. zone ≡ zone_given (option_copied rule.entry) offset) }
{
    match (rule, offset) {
        (Some(rule), _) => zone_of_rule(alloc, rule),
        (None, Some(seconds)) => Ok(zone_of_offset(seconds)),
        (None, None) => unreachable!(),
    }
}

fn zone_of_offset(seconds: i32) -> Zone
    requires { IsWithin 86_399 seconds }
    ensures { result ≡ zone_given None (Some seconds) }
{
    match Zone::fixed(seconds) {
        Some(zone) => zone,
        None => unreachable!(),
    }
}

// The rule or the offset of the zone that a request sets, where it sets one.
fn zone_asked(request: &Request) -> Option<(Option<&Text>, Option<i32>)>
    ensures { option_map asked_seen result ≡ zone_asked request.now }
{
    match request {
        Request::ZoneSet { rule, offset } => Some((rule.as_ref(), *offset)),
        _ => None,
    }
}

// The zone that a request sets, where it sets one.
pub(crate) fn zone_set(alloc: Global, request: &Request) -> Result<Option<Zone>, NoMemory>
    requires { IsFormed request.now }
    ensures { IfOk result (λ o. o ≡ zone_set request.now) }
{
    match zone_asked(request) {
        Some((rule, offset)) => Ok(Some(zone_given(alloc, rule, offset)?)),
        None => Ok(None),
    }
}
