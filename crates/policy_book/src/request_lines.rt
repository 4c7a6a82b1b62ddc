// The words of a request, from a table of a site file.
ghost use Rattle.std.specs.Prelude.{◌≡◌, [], ◌∷◌, map, Some, None, IfOk, MatchResult, option_map};
ghost use Rattle.toml.specs.Data.{get_member};
ghost use Rattle.toml.specs.View.{view, items_view, table_view};
ghost use Rattle.policy_book.specs.SiteFile.{text_of, word_of, is_among, valued, words_of, request_of, one, has_keys, array_at, on_policy};
ghost use Rattle.policy_book.specs.Loading.{Reads, Adds};

use crate::{LoadFault, NoMemory};
use itoa::Buffer;
use site_types::{ListOf, Text};
use std::alloc::Global;
use toml::{Table, Value};

// The words of a request.
pub type Line = ListOf<Text>;

// The text of a string or an integer.
pub fn text_of(alloc: Global, value: &Value) -> Result<Text, LoadFault>
    ensures { Reads (text_of (view value.now)) result }
{
    match value {
        Value::String(text) => Ok(Text::new(alloc, text.as_bytes())?),
        Value::Integer(number) => {
            Ok(Text::new(alloc, Buffer::new().format(*number).as_bytes())?)
        }
        _ => Err(LoadFault::NotASite),
    }
}

// A key and its value, as a word.
pub fn word_of(alloc: Global, key: &[u8], value: &[u8]) -> Result<Text, NoMemory>
    ensures { IfOk result (λ word. word ≡ word_of key.now value.now) }
{
    let mut word = key.to_vec(alloc)?;
    word.push(b'=')?;
    word.extend_from_slice(value)?;
    Ok(Text::from_vec(word))
}

// The first words of a request.
pub fn form_of(alloc: Global, command: &[u8], action: &[u8]) -> Result<Vec<Text>, NoMemory>
    ensures { IfOk result (λ form. form.items ≡ command.now ∷ action.now ∷ []) }
{
    let mut form = Vec::new(alloc);
    form.push(Text::new(alloc, command)?)?;
    form.push(Text::new(alloc, action)?)?;
    Ok(form)
}

// The first words of a request on a policy.
pub fn on_policy(
    alloc: Global,
    command: &[u8],
    action: &[u8],
    policy: &[u8],
) -> Result<Vec<Text>, NoMemory>
    ensures { IfOk result (λ form. form.items ≡ on_policy command.now action.now policy.now) }
{
    let mut form = form_of(alloc, command, action)?;
    form.push(word_of(alloc, b"policy", policy)?)?;
    Ok(form)
}

fn is_among(keys: &[&[u8]], key: &[u8]) -> bool
    ensures { result ≡ is_among (map (λ k. k.now) keys.now) key.now }
{
    for known in keys {
        if *known == key {
            return true;
        }
    }
    false
}

// Whether a table has no other keys than these.
pub fn has_keys(keys: &[&[u8]], members: &Table) -> bool
    ensures { result ≡ has_keys (map (λ k. k.now) keys.now) (table_view members.now) }
{
    'members: for (key, _value) in members.iter() {
        if !is_among(keys, key.as_bytes()) {
            return false;
        }
    }
    true
}

// Adds the words of a table's keys, which have to be among these; those of its parts are left out.
fn add_words(
    alloc: Global,
    words: &mut Vec<Text>,
    keys: &[&[u8]],
    parts: &[&[u8]],
    members: &Table,
) -> Result<(), LoadFault>
    ensures { Adds (words_of (map (λ k. k.now) keys.now) (map (λ k. k.now) parts.now) (table_view members.now)) words.old.items words.new.items result }
{
    'members: for (key, value) in members.iter() {
        if is_among(parts, key.as_bytes()) {
            continue;
        }
        if !is_among(keys, key.as_bytes()) {
            return Err(LoadFault::NotASite);
        }
        let text = text_of(alloc, value)?;
        words.push(word_of(alloc, key.as_bytes(), text.bytes())?)?;
    }
    Ok(())
}

// Adds the request of a table: these first words, and those of its keys.
pub fn add_request(
    alloc: Global,
    lines: &mut Vec<Line>,
    form: Vec<Text>,
    keys: &[&[u8]],
    parts: &[&[u8]],
    members: &Table,
) -> Result<(), LoadFault>
    ensures { Adds (one (request_of form.items (map (λ k. k.now) keys.now) (map (λ k. k.now) parts.now) (table_view members.now))) lines.old.items lines.new.items result }
{
    let mut words = form;
    add_words(alloc, &mut words, keys, parts, members)?;
    lines.push(ListOf::from_vec(words))?;
    Ok(())
}

// The value of a key.
pub fn value_at<'a>(members: &'a Table, key: &str) -> Option<&'a Value>
    ensures { option_map (λ v. view v.now) result ≡ get_member key.now (table_view members.now) }
{
    members.get(key)
}

// The items of the array at a key, none where the key isn't there.
pub fn items_at<'a>(members: &'a Table, key: &str) -> Result<&'a [Value], LoadFault>
    ensures { MatchResult result (λ items. array_at (get_member key.now (table_view members.now)) ≡ Some (items_view items.now)) (λ _. array_at (get_member key.now (table_view members.now)) ≡ None) }
{
    match value_at(members, key) {
        None => Ok(&[]),
        Some(Value::Array(items)) => Ok(items),
        Some(_) => Err(LoadFault::NotASite),
    }
}
