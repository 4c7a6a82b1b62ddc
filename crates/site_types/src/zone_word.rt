// Zones, as they stand in a word.
ghost use Rattle.std.specs.Prelude.{◌≡◌, ◌<◌, ◌++◌, IfOk, IfSome, OnOk, is_some};
ghost use Rattle.site_types.specs.ZoneWords.{seconds_of, sign_of, signed, offset_of, offset_text, rule_of};

use crate::digits::{push_two_digits, read_digits};
use crate::{NoMemory, Text};
use jiff_tz::posix;
use std::alloc::Global;

/// The seconds of an offset, as `+02:00` or `-00:30`, east of UTC above 0. None exactly where the text spells none.
pub fn read_offset(text: &[u8]) -> Option<i32>
    ensures { result ≡ offset_of text.now }
{
    if text.len() != 6 || text[3] != b':' {
        return None;
    }
    let hours = read_digits(&text[1..3])?;
    let minutes = read_digits(&text[4..])?;
    signed(text[0], seconds_of(hours, minutes)?)
}

fn seconds_of(hours: u16, minutes: u16) -> Option<u32>
    ensures seconds { result ≡ seconds_of hours minutes }
    ensures within { IfSome result (λ seconds. seconds < 86_400) }
{
    if hours < 24 && minutes < 60 {
        return Some(u32::from(hours) * 3600 + u32::from(minutes) * 60);
    }
    None
}

fn signed(sign: u8, seconds: u32) -> Option<i32>
    requires { seconds < 86_400 }
    ensures { result ≡ signed sign seconds }
{
    match sign {
        b'+' => Some(seconds as i32),
        b'-' if seconds > 0 => Some(-(seconds as i32)),
        _ => None,
    }
}

/// A POSIX rule of at most 1,024 bytes, as it stands. None exactly where the text is none.
pub fn read_rule(alloc: Global, text: &[u8]) -> Result<Option<Text>, NoMemory>
    ensures { IfOk result (λ o. o ≡ rule_of text.now) }
{
    if !is_rule(text) {
        return Ok(None);
    }
    Ok(Some(Text::new(alloc, text)?))
}

const LONGEST_RULE: usize = 1024;

pub fn is_rule(text: &[u8]) -> bool
    ensures { result ≡ is_some (rule_of text.now) }
{
    text.len() <= LONGEST_RULE && posix::TimeZone::parse(text).is_ok()
}

fn sign_of(offset: i32) -> u8
    ensures { result ≡ sign_of offset }
{
    if offset < 0 { b'-' } else { b'+' }
}

pub fn push_offset(text: &mut Vec<u8>, offset: i32) -> Result<(), NoMemory>
    ensures { OnOk result (text.new.items ≡ text.old.items ++ offset_text offset) }
{
    let seconds = offset.unsigned_abs();
    text.push(sign_of(offset))?;
    push_two_digits(text, seconds / 3600)?;
    text.push(b':')?;
    push_two_digits(text, seconds % 3600 / 60)
}
