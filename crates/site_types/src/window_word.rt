// Windows, as they stand in a word.
ghost use Rattle.std.specs.Prelude.{◌≡◌, ◌<◌, ◌++◌, IfOk, OnOk};
ghost use Rattle.site_types.specs.WindowTexts.{clock_text, windows_text};
ghost use Rattle.site_types.specs.WindowWords.{second_at, second_of, window_at, windows_of};

use crate::digits::{push_two_digits, read_digits};
use crate::joined::{JoinedItem, Written, push_joined, read_joined};
use crate::weekday::{read_weekday, weekday_name};
use crate::wording::push_number;
use crate::{ListOf, NoMemory, Window, Windows, read_number};
use std::alloc::Global;

const MOST_WINDOWS: usize = 28;

/// The windows of a schedule or an operation: `always`, `none`, which lists none of them, or 1 to 28 windows joined by `+`.
/// None exactly where the text spells none of these.
pub fn read_windows(alloc: Global, text: &[u8]) -> Result<Option<Windows>, NoMemory>
    ensures { IfOk result (λ o. o ≡ windows_of text.now) }
{
    if text == b"always".as_slice() {
        return Ok(Some(Windows::Always));
    }
    if text == b"none".as_slice() {
        return Ok(Some(Windows::Listed(ListOf::new(alloc))));
    }
    Ok(read_joined(alloc, text, MOST_WINDOWS)?.map(Windows::Listed))
}

impl JoinedItem for Window {
    ghost use Rattle.site_types.specs.WindowWords.{window_of};

    ghost spelled = { window_of };

    // A window, as `fri/20:00:00/36000`.
    fn read(text: &[u8]) -> Option<Window> {
        if text.len() < 13 || text[3] != b'/' || text[12] != b'/' {
            return None;
        }
        window_at(
            read_weekday(&text[..3])?,
            read_second(&text[4..12])?,
            read_number(&text[13..], 604_800)?,
        )
    }
}

fn window_at(weekday: u8, start: u32, length: u64) -> Option<Window>
    ensures { result ≡ window_at weekday start length }
{
    Window::new(weekday, start, u32::try_from(length).ok()?)
}

// The second of the day at a time of two digits each for hours, minutes and seconds.
fn read_second(text: &[u8]) -> Option<u32>
    ensures { result ≡ second_of text.now }
{
    if text.len() != 8 || text[2] != b':' || text[5] != b':' {
        return None;
    }
    second_at(
        read_digits(&text[..2])?,
        read_digits(&text[3..5])?,
        read_digits(&text[6..])?,
    )
}

fn second_at(hour: u16, minute: u16, second: u16) -> Option<u32>
    ensures { result ≡ second_at hour minute second }
{
    if hour < 24 && minute < 60 && second < 60 {
        return Some(u32::from(hour) * 3600 + u32::from(minute) * 60 + u32::from(second));
    }
    None
}

fn push_clock(text: &mut Vec<u8>, second: u32) -> Result<(), NoMemory>
    ensures { OnOk result (text.new.items ≡ text.old.items ++ clock_text second) }
{
    push_two_digits(text, second / 3600)?;
    text.push(b':')?;
    push_two_digits(text, second % 3600 / 60)?;
    text.push(b':')?;
    push_two_digits(text, second % 60)
}

impl Written for Window {
    ghost use Rattle.site_types.specs.WindowTexts.{window_text};

    ghost written = { window_text };

    fn push_to(&self, text: &mut Vec<u8>) -> Result<(), NoMemory> {
        text.extend_from_slice(weekday_name(self.weekday()))?;
        text.push(b'/')?;
        push_clock(text, self.start())?;
        text.push(b'/')?;
        push_number(text, u64::from(self.length()))
    }
}

pub fn push_windows(text: &mut Vec<u8>, windows: &Windows) -> Result<(), NoMemory>
    ensures { OnOk result (text.new.items ≡ text.old.items ++ windows_text windows.now) }
{
    match windows {
        Windows::Always => text.extend_from_slice(b"always"),
        Windows::Listed(listed) if listed.as_slice().is_empty() => text.extend_from_slice(b"none"),
        Windows::Listed(listed) => push_joined(text, listed.as_slice()),
    }
}
