// The values that words give to keys, each read by its grammar. None where no word gives one, or the value isn't of the grammar.
ghost use Rattle.std.specs.Prelude.{◌≡◌, ◌≤◌, ◌<◌, ◌^◌, IfOk, IfSome};
ghost use Rattle.site_types.specs.Calendars.{calendar_of};
ghost use Rattle.site_types.specs.Ids.{id_of};
ghost use Rattle.site_types.specs.Keys.{among, greatest_of, name_of, number_of};
ghost use Rattle.site_types.specs.Paths.{path_of};
ghost use Rattle.site_types.specs.Values.{kind_of, type_of, yes_or_no, start_of};
ghost use Rattle.site_types.specs.WindowWords.{windows_of};
ghost use Rattle.site_types.specs.ZoneWords.{rule_of, offset_of};

use crate::calendar_word::read_calendar;
use crate::keys::{FormKey, Grammar, value_among};
use crate::number::read_number_between;
use crate::path_word::read_path;
use crate::value_words::{read_kind, read_policy_type, read_start, read_yes_or_no};
use crate::window_word::read_windows;
use crate::zone_word::{read_offset, read_rule};
use crate::{
    BackupId, CalendarItem, Kind, ListOf, Name, NoMemory, PolicyType, Start, Text, Windows,
};
use std::alloc::Global;

pub fn name_among(alloc: Global, words: &[Text], key: &FormKey) -> Result<Option<Name>, NoMemory>
    ensures { IfOk result (λ o. o ≡ among name_of key.now.name.now words.now) }
{
    match value_among(words, key.name) {
        Some(value) => Name::new(alloc, value),
        None => Ok(None),
    }
}

pub fn id_among(alloc: Global, words: &[Text], key: &FormKey) -> Result<Option<BackupId>, NoMemory>
    ensures { IfOk result (λ o. o ≡ among id_of key.now.name.now words.now) }
{
    match value_among(words, key.name) {
        Some(value) => BackupId::new(alloc, value),
        None => Ok(None),
    }
}

pub fn windows_among(
    alloc: Global,
    words: &[Text],
    key: &FormKey,
) -> Result<Option<Windows>, NoMemory>
    ensures { IfOk result (λ o. o ≡ among windows_of key.now.name.now words.now) }
{
    match value_among(words, key.name) {
        Some(value) => read_windows(alloc, value),
        None => Ok(None),
    }
}

pub fn calendar_among(
    alloc: Global,
    words: &[Text],
    key: &FormKey,
) -> Result<Option<ListOf<CalendarItem>>, NoMemory>
    ensures { IfOk result (λ o. o ≡ among calendar_of key.now.name.now words.now) }
{
    match value_among(words, key.name) {
        Some(value) => read_calendar(alloc, value),
        None => Ok(None),
    }
}

pub fn path_among(alloc: Global, words: &[Text], key: &FormKey) -> Result<Option<Text>, NoMemory>
    ensures { IfOk result (λ o. o ≡ among path_of key.now.name.now words.now) }
{
    match value_among(words, key.name) {
        Some(value) => read_path(alloc, value),
        None => Ok(None),
    }
}

pub fn rule_among(alloc: Global, words: &[Text], key: &FormKey) -> Result<Option<Text>, NoMemory>
    ensures { IfOk result (λ o. o ≡ among rule_of key.now.name.now words.now) }
{
    match value_among(words, key.name) {
        Some(value) => read_rule(alloc, value),
        None => Ok(None),
    }
}

pub fn kind_among(words: &[Text], key: &FormKey) -> Option<Kind>
    ensures { result ≡ among kind_of key.now.name.now words.now }
{
    read_kind(value_among(words, key.name)?)
}

pub fn policy_type_among(words: &[Text], key: &FormKey) -> Option<PolicyType>
    ensures { result ≡ among type_of key.now.name.now words.now }
{
    read_policy_type(value_among(words, key.name)?)
}

pub fn yes_or_no_among(words: &[Text], key: &FormKey) -> Option<bool>
    ensures { result ≡ among yes_or_no key.now.name.now words.now }
{
    read_yes_or_no(value_among(words, key.name)?)
}

pub fn start_among(words: &[Text], key: &FormKey) -> Option<Start>
    ensures { result ≡ among start_of key.now.name.now words.now }
{
    read_start(value_among(words, key.name)?)
}

pub fn offset_among(words: &[Text], key: &FormKey) -> Option<i32>
    ensures { result ≡ among offset_of key.now.name.now words.now }
{
    read_offset(value_among(words, key.name)?)
}

pub fn number_among(words: &[Text], key: &FormKey) -> Option<u64>
    ensures number { result ≡ among (number_of key.now.grammar) key.now.name.now words.now }
    ensures within { IfSome result (λ number. number ≤ greatest_of key.now.grammar) }
{
    match key.grammar {
        Grammar::Number { least, greatest } => {
            read_number_between(value_among(words, key.name)?, least, greatest)
        }
        _ => None,
    }
}

pub fn u32_among(words: &[Text], key: &FormKey) -> Option<u32>
    requires { greatest_of key.now.grammar < 2 ^ 32 }
    ensures { result ≡ among (number_of key.now.grammar) key.now.name.now words.now }
{
    let number = number_among(words, key)?;
    Some(number as u32)
}

pub fn u8_among(words: &[Text], key: &FormKey) -> Option<u8>
    requires { greatest_of key.now.grammar < 2 ^ 8 }
    ensures { result ≡ among (number_of key.now.grammar) key.now.name.now words.now }
{
    let number = number_among(words, key)?;
    Some(number as u8)
}
