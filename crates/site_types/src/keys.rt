// The keys of forms, and the values that words give to them.
ghost use Rattle.std.specs.Prelude.{◌≡◌, ◌≤◌, ◌+◌, [], map, IfOk, IfSome, length, position, option_copied};
ghost use Rattle.site_types.specs.Keys.{is_equals, has_equals, key_of, value_of, has_key, allows, is_good, first_bad, is_word, value_among, is_of, key_stated};

use crate::calendar_word::read_calendar;
use crate::id::is_id;
use crate::name::is_name;
use crate::number::read_number_between;
use crate::path_word::read_path;
use crate::value_words::{read_kind, read_policy_type, read_start, read_yes_or_no};
use crate::window_word::read_windows;
use crate::zone_word::{is_rule, read_offset};
use crate::{NoMemory, Text};
use std::alloc::Global;

// What the values of a key look like.
#[derive(Clone, Copy, Debug)]
pub enum Grammar {
    Name,
    Id,
    // A number from the least to the greatest.
    Number { least: u64, greatest: u64 },
    Windows,
    Calendar,
    Kind,
    PolicyType,
    YesOrNo,
    Start,
    Path,
    Rule,
    Offset,
}

// A key that words of a form may give a value.
#[derive(Clone, Copy, Debug)]
pub struct FormKey {
    pub name: &'static [u8],
    pub grammar: Grammar,
}

impl Grammar {
    // The value is one that the grammar has.
    fn allows(self, alloc: Global, value: &[u8]) -> Result<bool, NoMemory>
        ensures { IfOk result (λ b. b ≡ is_of self value.now) }
    {
        Ok(match self {
            Grammar::Name => is_name(value),
            Grammar::Id => is_id(value),
            Grammar::Number { least, greatest } => {
                read_number_between(value, least, greatest).is_some()
            }
            Grammar::Windows => read_windows(alloc, value)?.is_some(),
            Grammar::Calendar => read_calendar(alloc, value)?.is_some(),
            Grammar::Kind => read_kind(value).is_some(),
            Grammar::PolicyType => read_policy_type(value).is_some(),
            Grammar::YesOrNo => read_yes_or_no(value).is_some(),
            Grammar::Start => read_start(value).is_some(),
            Grammar::Path => read_path(alloc, value)?.is_some(),
            Grammar::Rule => is_rule(value),
            Grammar::Offset => read_offset(value).is_some(),
        })
    }
}

// A word has only printed characters of ASCII other than the space.
fn is_word(word: &[u8]) -> bool
    ensures { result ≡ is_word word.now }
{
    word.iter().all(|byte| matches!(*byte, b'!'..=b'~'))
}

fn equals_sign_of(word: &[u8]) -> Option<usize>
    ensures { result ≡ position is_equals word.now }
{
    word.iter().position(|byte| *byte == b'=')
}

fn has_equals(word: &[u8]) -> bool
    ensures { result ≡ has_equals word.now }
{
    equals_sign_of(word).is_some()
}

// What stands before a word's first equals sign.
fn key_of(word: &[u8]) -> &[u8]
    ensures { result.now ≡ key_of word.now }
{
    match equals_sign_of(word) {
        Some(at) => &word[..at],
        None => word,
    }
}

// What stands behind it.
fn value_of(word: &[u8]) -> &[u8]
    ensures { result.now ≡ value_of word.now }
{
    match equals_sign_of(word) {
        Some(at) => &word[at + 1..],
        None => b"",
    }
}

fn has_key(words: &[Text], key: &[u8]) -> bool
    ensures { result ≡ has_key key.now words.now }
{
    words.iter().any(|word| key_of(word.bytes()) == key)
}

fn allows(alloc: Global, keys: &[FormKey], name: &[u8], value: &[u8]) -> Result<bool, NoMemory>
    ensures { IfOk result (λ b. b ≡ allows (map key_stated keys.now) name.now value.now) }
{
    for key in keys {
        if name == key.name {
            return key.grammar.allows(alloc, value);
        }
    }
    Ok(false)
}

fn is_good(alloc: Global, keys: &[FormKey], earlier: &[Text], word: &[u8]) -> Result<bool, NoMemory>
    ensures { IfOk result (λ b. b ≡ is_good (map key_stated keys.now) earlier.now word.now) }
{
    if !is_word(word) || !has_equals(word) || has_key(earlier, key_of(word)) {
        return Ok(false);
    }
    allows(alloc, keys, key_of(word), value_of(word))
}

// The index in its line of the first bad one among the words behind a form, where the first of them has the index `at`.
pub fn first_bad(
    alloc: Global,
    words: &[Text],
    keys: &[FormKey],
    at: u64,
) -> Result<Option<u64>, NoMemory>
    requires { at ≤ 2 }
    ensures index { IfOk result (λ o. o ≡ first_bad (map key_stated keys.now) [] at words.now) }
    ensures within { IfOk result (λ o. IfSome o (λ index. index ≤ at + length words.now)) }
{
    for (index, word) in words.iter().enumerate() {
        if !is_good(alloc, keys, &words[..index], word.bytes())? {
            return Ok(Some(at + index as u64));
        }
    }
    Ok(None)
}

// The value that words give to a key.
pub fn value_among<'a>(words: &'a [Text], key: &[u8]) -> Option<&'a [u8]>
    ensures { option_copied result ≡ value_among key.now words.now }
{
    for word in words {
        if key_of(word.bytes()) == key {
            return Some(value_of(word.bytes()));
        }
    }
    None
}
