// Numbers of a fixed count of digits, as dates and times have them.
ghost use Rattle.std.specs.Prelude.{◌≡◌, ◌≤◌, ◌+◌, ◌%◌, ◌++◌, length, OnOk};
ghost use Rattle.std.specs.List.{list_all};
ghost use Rattle.std.specs.Char.{is_ascii_digit};
ghost use Rattle.site_types.specs.Digits.{digits_of};
ghost use Rattle.site_types.specs.ZoneWords.{two_digits};

use crate::NoMemory;

/// The number that one to four decimal digits spell.
pub fn read_digits(text: &[u8]) -> Option<u16>
    requires some { 1 ≤ length text.now }
    requires few { length text.now ≤ 4 }
    ensures { result ≡ digits_of (length text.now) text.now }
{
    if !are_digits(text) {
        return None;
    }
    std::str::from_utf8(text).ok()?.parse().ok()
}

fn are_digits(text: &[u8]) -> bool
    ensures { result ≡ list_all is_ascii_digit text.now }
{
    text.iter().all(u8::is_ascii_digit)
}

fn last_digit(number: u32) -> u8
    ensures { result ≡ 48 + number % 10 }
{
    b'0' + (number % 10) as u8
}

pub fn push_two_digits(text: &mut Vec<u8>, number: u32) -> Result<(), NoMemory>
    ensures { OnOk result (text.new.items ≡ text.old.items ++ two_digits number) }
{
    text.push(last_digit(number / 10))?;
    text.push(last_digit(number))?;
    Ok(())
}
