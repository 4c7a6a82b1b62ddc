use crate::form_text::{FormText, Need, gives, key_of};
use crate::lists::{push_list, push_shown};
use crate::site_file::explain_site_file;
use crate::table::{FORMS, HIGH_MARK, LOW_MARK, TAKES, USAGE};
use site_types::{LAST_MOMENT, NoMemory, Request, Text, WordFault, read_number};
use std::alloc::{AllocError, Global};

/// The usage, and behind it a line that says what is missing.
pub fn usage(alloc: Global, missing: &str) -> Result<String, NoMemory> {
    let mut out = String::new(alloc);
    push_usage(&mut out)?;
    out.push_str("bpdesk: ")?;
    out.push_str(missing)?;
    out.push_str("\n")?;
    Ok(out)
}

/// The words are a session's.
pub fn is_session(words: &[Text]) -> bool {
    matches!(words, [word] if word.bytes() == b"session".as_slice())
}

/// The words are those of a request whose payload is a site file.
pub fn takes_site_file(words: &[Text]) -> bool {
    matches!(words, [word] | [_, word] if word.bytes() == b"bpload".as_slice())
}

/// What is wrong with the words of a command, a line that says which word, and what belongs there. Words are counted from 0, as
/// in the reply. Where no form is meant the usage stands before the line. Where they are a request's, it is the payload that is no
/// site file. None where the words are a session's.
pub fn explain(
    alloc: Global,
    words: &[Text],
    payload: Option<&[u8]>,
) -> Result<Option<String>, NoMemory> {
    let Some((first, further)) = words.split_first() else {
        return Ok(Some(usage(alloc, "a request is missing")?));
    };
    let mut out = String::new(alloc);
    match first.bytes() {
        b"session" => push_not_alone(&mut out, further)?,
        [b'@', digits @ ..] => {
            if read_number(digits, LAST_MOMENT).is_none() {
                push_word(&mut out, 0, first)?;
                out.push_str("a moment is @ and a number from 0 to 250000000000")?;
            } else if further.is_empty() {
                push_usage(&mut out)?;
                out.push_str("bpdesk: a request is missing behind ")?;
                push_shown(&mut out, first.bytes())?;
            } else {
                push_mistake(alloc, &mut out, further, 1)?;
            }
        }
        _ => push_mistake(alloc, &mut out, words, 0)?,
    }
    if !out.is_empty() {
        out.push_str("\n")?;
        return Ok(Some(out));
    }
    match payload {
        Some(bytes) => Ok(Some(explain_site_file(alloc, bytes)?)),
        None => Ok(None),
    }
}

fn push_usage(out: &mut String) -> Result<(), NoMemory> {
    for line in &USAGE {
        out.push_str(line)?;
        out.push_str("\n")?;
    }
    Ok(())
}

// Begins the line that tells of a word.
fn push_word(out: &mut String, at: usize, word: &Text) -> Result<(), NoMemory> {
    out.push_str(format!(in *out.allocator(); "bpdesk: word {at}, ")?.as_str())?;
    push_shown(out, word.bytes())?;
    out.push_str(": ")
}

fn push_not_alone(out: &mut String, further: &[Text]) -> Result<(), NoMemory> {
    let Some(word) = further.first() else {
        return Ok(());
    };
    push_word(out, 1, word)?;
    out.push_str("session takes no further words")
}

// Appends what is wrong with a request's words, where so many stand before them.
fn push_mistake(
    alloc: Global,
    out: &mut String,
    words: &[Text],
    before: usize,
) -> Result<(), NoMemory> {
    match FORMS.iter().find(|form| form.begins(words)) {
        Some(form) => match Request::read(alloc, words) {
            Err(WordFault::NoMemory) => Err(AllocError),
            Err(WordFault::Bad { index }) => push_bad(
                alloc,
                out,
                form,
                words,
                index as usize,
                before,
            ),
            Ok(_) => Ok(()),
        },
        None => push_formless(alloc, out, words, before),
    }
}

// Appends what is wrong with words that begin as no form does.
fn push_formless(
    alloc: Global,
    out: &mut String,
    words: &[Text],
    before: usize,
) -> Result<(), NoMemory> {
    let Some((first, further)) = words.split_first() else {
        return Ok(());
    };
    let seconds: Vec<&str> = FORMS
        .iter()
        .filter(|form| form.is_of(first))
        .filter_map(|form| form.words.get(1).copied())
        .collect(alloc)?;
    if seconds.is_empty() {
        if first.bytes() != b"session".as_slice() {
            push_usage(out)?;
        }
        push_word(out, before, first)?;
        return out.push_str(match first.bytes() {
            b"session" => "session takes no moment",
            _ => "there is no such request",
        });
    }
    match further.first() {
        Some(word) => push_word(out, before.saturating_add(1), word)?,
        None => out.push_str("bpdesk: ")?,
    }
    push_shown(out, first.bytes())?;
    out.push_str(" is followed by ")?;
    push_list(out, &seconds, "", " or ")
}

// Appends what is wrong with the word of this index, or with all words where it is their number.
fn push_bad(
    alloc: Global,
    out: &mut String,
    form: &FormText,
    words: &[Text],
    index: usize,
    before: usize,
) -> Result<(), NoMemory> {
    match words.get(index) {
        Some(word) => push_word(out, before.saturating_add(index), word)?,
        None => out.push_str("bpdesk: ")?,
    }
    push_reason(alloc, out, form, words, index)
}

/// Appends why the word of this index is bad, or what all words lack where it is their number.
pub fn push_reason(
    alloc: Global,
    out: &mut String,
    form: &FormText,
    words: &[Text],
    index: usize,
) -> Result<(), NoMemory> {
    let Some(word) = words.get(index) else {
        push_form(out, form)?;
        return push_missing(alloc, out, form, words);
    };
    match key_of(word) {
        None | Some([]) => {
            out.push_str("a word behind ")?;
            push_form(out, form)?;
            out.push_str(" is KEY=VALUE")
        }
        Some(key) if !form.has(key) => push_unknown(alloc, out, form, key),
        Some(key) => {
            push_shown(out, key)?;
            let earlier = words.get(..index).unwrap_or(&[]);
            if gives(earlier, key) {
                return out.push_str("= stands there already");
            }
            out.push_str(" takes ")?;
            out.push_str(takes(key))
        }
    }
}

fn push_form(out: &mut String, form: &FormText) -> Result<(), NoMemory> {
    for (at, word) in form.words.iter().enumerate() {
        if at > 0 {
            out.push_str(" ")?;
        }
        out.push_str(word)?;
    }
    Ok(())
}

fn push_unknown(
    alloc: Global,
    out: &mut String,
    form: &FormText,
    key: &[u8],
) -> Result<(), NoMemory> {
    push_form(out, form)?;
    out.push_str(" has no key ")?;
    push_shown(out, key)?;
    if form.keys.is_empty() {
        return Ok(());
    }
    let names: Vec<&str> = form.keys.iter().map(|own| own.name).collect(alloc)?;
    out.push_str(", but ")?;
    push_list(out, &names, "", " and ")
}

fn takes(key: &[u8]) -> &'static str {
    TAKES
        .iter()
        .find(|row| row.0.as_bytes() == key)
        .map_or("another value", |row| row.1)
}

// Appends what is missing behind a form's words, or doesn't go together.
fn push_missing(
    alloc: Global,
    out: &mut String,
    form: &FormText,
    words: &[Text],
) -> Result<(), NoMemory> {
    if form.keys.iter().any(|key| key.need == Need::OneWay) {
        return push_ways(alloc, out, form, words);
    }
    let lacking = not_given(alloc, form, words, Need::Always)?;
    if !lacking.is_empty() {
        return push_lacking(out, &lacking);
    }
    let some = names(alloc, form, Need::OneOf)?;
    if !some.is_empty() && count_given(&some, words) != 1 {
        out.push_str(" takes one of ")?;
        return push_list(out, &some, "=", " and ");
    }
    let all = names(alloc, form, Need::AllOrNone)?;
    if count_given(&all, words) == 1 {
        out.push_str(" takes both of ")?;
        push_list(out, &all, "=", " and ")?;
        return out.push_str(", or none");
    }
    push_marks(out, words)
}

// Appends what is missing behind the words of a form that is written in one of two ways, or that both were begun.
fn push_ways(
    alloc: Global,
    out: &mut String,
    form: &FormText,
    words: &[Text],
) -> Result<(), NoMemory> {
    let one = way(alloc, form, Need::OneWay, Need::OneWayMaybe)?;
    let other = way(alloc, form, Need::OtherWay, Need::OtherWayMaybe)?;
    let has_one = count_given(&one, words) > 0;
    let has_other = count_given(&other, words) > 0;
    if has_one && has_other {
        out.push_str(": ")?;
        push_list(out, &one, "=", " and ")?;
        out.push_str(" don't go with ")?;
        return push_list(out, &other, "=", " and ");
    }
    if has_one || has_other {
        let need = if has_one {
            Need::OneWay
        } else {
            Need::OtherWay
        };
        let lacking = not_given(alloc, form, words, need)?;
        return push_lacking(out, &lacking);
    }
    let first = names(alloc, form, Need::OneWay)?;
    let second = names(alloc, form, Need::OtherWay)?;
    push_lacking(out, &first)?;
    out.push_str(", or ")?;
    push_list(out, &second, "=", " and ")
}

fn push_lacking(out: &mut String, lacking: &[&str]) -> Result<(), NoMemory> {
    out.push_str(" lacks ")?;
    push_list(out, lacking, "=", " and ")
}

// Appends that the marks don't go together, of which one may be missing.
fn push_marks(out: &mut String, words: &[Text]) -> Result<(), NoMemory> {
    out.push_str(": low= is below high=")?;
    if !gives(words, b"low") {
        out.push_str(", and is ")?;
        out.push_str(LOW_MARK)?;
        return out.push_str(" where it is missing");
    }
    if !gives(words, b"high") {
        out.push_str(", which is ")?;
        out.push_str(HIGH_MARK)?;
        return out.push_str(" where it is missing");
    }
    Ok(())
}

// The form's keys of this need.
fn names(alloc: Global, form: &FormText, need: Need) -> Result<Vec<&'static str>, NoMemory> {
    form.keys
        .iter()
        .filter(|key| key.need == need)
        .map(|key| key.name)
        .collect(alloc)
}

// The form's keys of this need to which no word gives a value.
fn not_given(
    alloc: Global,
    form: &FormText,
    words: &[Text],
    need: Need,
) -> Result<Vec<&'static str>, NoMemory> {
    form.keys
        .iter()
        .filter(|key| key.need == need && !gives(words, key.name.as_bytes()))
        .map(|key| key.name)
        .collect(alloc)
}

// The form's keys of one way to write it, those that may be missing among them.
fn way(
    alloc: Global,
    form: &FormText,
    need: Need,
    maybe: Need,
) -> Result<Vec<&'static str>, NoMemory> {
    form.keys
        .iter()
        .filter(|key| key.need == need || key.need == maybe)
        .map(|key| key.name)
        .collect(alloc)
}

fn count_given(names: &[&str], words: &[Text]) -> usize {
    names
        .iter()
        .filter(|name| gives(words, name.as_bytes()))
        .count()
}
