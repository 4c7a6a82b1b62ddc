// What is wrong with a site file. Its entries stand for requests, so what is wrong with one is what is wrong with that request's
// words.
use crate::form_text::FormText;
use crate::lists::{push_list, push_shown};
use crate::mistakes::push_reason;
use crate::table::FORMS;
use site_types::{NoMemory, Request, Text, WordFault, written_path};
use std::alloc::{AllocError, Global};
use toml::{Table, Value};

const PARTS: [&str; 4] = ["zone", "unit", "client", "policy"];

const PARTS_OF_POLICY: [&str; 3] = ["clients", "selections", "schedule"];

/// Why a payload was refused as no site file: the line where it is no TOML, or else the part, the entry and the key.
pub fn explain_site_file(alloc: Global, bytes: &[u8]) -> Result<String, NoMemory> {
    let mut out = String::from_str(alloc, "bpdesk: the site file")?;
    match toml::table_from_slice(alloc, bytes) {
        Ok(file) => {
            if !push_fault(alloc, &mut out, &file)? {
                out.push_str(" is refused")?;
            }
        }
        Err(fault) if fault.is_memory() => return Err(AllocError),
        Err(fault) => {
            let start = fault.span().map_or(0, |span| span.start);
            let line = lines_before(bytes, start).saturating_add(1);
            let message = fault.message();
            out.push_str(format!(in alloc; " is no TOML: line {line}: {message}")?.as_str())?;
        }
    }
    out.push_str("\n")?;
    Ok(out)
}

fn lines_before(bytes: &[u8], at: usize) -> usize {
    bytes.iter().take(at).filter(|byte| **byte == b'\n').count()
}

// Appends the first fault of a file. Whether there is one.
fn push_fault(alloc: Global, out: &mut String, file: &Table) -> Result<bool, NoMemory> {
    for (key, _value) in file.iter() {
        if !PARTS.iter().any(|part| *part == key.as_str()) {
            out.push_str(" has no part ")?;
            push_shown(out, key.as_bytes())?;
            out.push_str(", but ")?;
            push_list(out, &PARTS, "", " and ")?;
            return Ok(true);
        }
    }
    if let Some(zone) = file.get("zone") {
        let words = first_words(alloc, &["bpzone", "set"])?;
        if push_entry(alloc, out, "zone", words, zone)? {
            return Ok(true);
        }
    }
    Ok(
        push_entries(alloc, out, "", file, "unit", &["unit", "add"])?
            || push_entries(alloc, out, "", file, "client", &["client", "add"])?
            || push_policies(alloc, out, file)?,
    )
}

// Appends the first fault of the tables of an array, each of which stands for a request with these first words.
fn push_entries(
    alloc: Global,
    out: &mut String,
    whose: &str,
    table: &Table,
    part: &str,
    form: &[&str],
) -> Result<bool, NoMemory> {
    let Some(entries) = items(table, part) else {
        return push_no_array(alloc, out, whose, part);
    };
    for (at, entry) in entries.iter().enumerate() {
        let label = format!(in alloc; "{whose}{part} {}", at.saturating_add(1))?;
        let words = first_words(alloc, form)?;
        if push_entry(alloc, out, label.as_str(), words, entry)? {
            return Ok(true);
        }
    }
    Ok(false)
}

fn push_policies(alloc: Global, out: &mut String, file: &Table) -> Result<bool, NoMemory> {
    let Some(policies) = items(file, "policy") else {
        return push_no_array(alloc, out, "", "policy");
    };
    for (at, policy) in policies.iter().enumerate() {
        let label = format!(in alloc; "policy {}", at.saturating_add(1))?;
        let words = first_words(alloc, &["bppolicynew", "add"])?;
        if push_entry(alloc, out, label.as_str(), words, policy)? {
            return Ok(true);
        }
        if let Value::Table(members) = policy
            && push_parts(alloc, out, label.as_str(), members)?
        {
            return Ok(true);
        }
    }
    Ok(false)
}

// Appends the first fault of a policy's lists.
fn push_parts(
    alloc: Global,
    out: &mut String,
    label: &str,
    policy: &Table,
) -> Result<bool, NoMemory> {
    let whose = format!(in alloc; "{label}, ")?;
    let name = match policy.get("policy") {
        Some(Value::String(name)) => name.as_str(),
        _ => "",
    };
    let own = format!(in alloc; "policy={name}")?;
    let scheduled = ["bpplsched", "add", own.as_str()];
    Ok(
        push_listed(alloc, out, whose.as_str(), policy, "clients", own.as_str())?
            || push_listed(
                alloc,
                out,
                whose.as_str(),
                policy,
                "selections",
                own.as_str(),
            )?
            || push_entries(alloc, out, whose.as_str(), policy, "schedule", &scheduled)?,
    )
}

// Appends the first fault of a policy's clients or selections.
fn push_listed(
    alloc: Global,
    out: &mut String,
    whose: &str,
    policy: &Table,
    part: &str,
    own: &str,
) -> Result<bool, NoMemory> {
    let Some(listed) = items(policy, part) else {
        return push_no_array(alloc, out, whose, part);
    };
    for (at, item) in listed.iter().enumerate() {
        let label = format!(in alloc; "{whose}{part} {}", at.saturating_add(1))?;
        let Some(text) = text_of(alloc, item)? else {
            return push_told(out, label.as_str(), " is neither a string nor a number");
        };
        let (action, key) = match part {
            "clients" => ("client-add", "client="),
            _ => ("select", "path="),
        };
        let mut words = first_words(alloc, &["bppolicynew", action, own])?;
        words.push(word_of(alloc, key, text)?)?;
        if push_words(alloc, out, label.as_str(), &words)? {
            return Ok(true);
        }
    }
    Ok(false)
}

// Appends the first fault of a table that stands for a request with these first words.
fn push_entry(
    alloc: Global,
    out: &mut String,
    label: &str,
    first: Vec<Text>,
    entry: &Value,
) -> Result<bool, NoMemory> {
    let Value::Table(members) = entry else {
        return push_told(out, label, " is no table");
    };
    let mut words = first;
    let is_policy = is_of_policy(&words);
    for (key, value) in members.iter() {
        if is_policy && PARTS_OF_POLICY.iter().any(|part| *part == key.as_str()) {
            continue;
        }
        let Some(text) = text_of(alloc, value)? else {
            push_told(out, label, ": ")?;
            push_shown(out, key.as_bytes())?;
            out.push_str(" is neither a string nor a number")?;
            return Ok(true);
        };
        let start = format!(in alloc; "{key}=")?;
        words.push(word_of(alloc, start.as_str(), text)?)?;
    }
    push_words(alloc, out, label, &words)
}

fn is_of_policy(words: &[Text]) -> bool {
    words
        .first()
        .is_some_and(|word| word.bytes() == b"bppolicynew".as_slice())
}

// Appends what is wrong with the words of an entry's request.
fn push_words(
    alloc: Global,
    out: &mut String,
    label: &str,
    words: &[Text],
) -> Result<bool, NoMemory> {
    let index = match Request::read(alloc, words) {
        Ok(_) => return Ok(false),
        Err(WordFault::NoMemory) => return Err(AllocError),
        Err(WordFault::Bad { index }) => index,
    };
    push_told(out, label, ": ")?;
    match form_of(words) {
        Some(form) => push_reason(alloc, out, form, words, index as usize)?,
        None => out.push_str("it is no request")?,
    }
    Ok(true)
}

fn form_of(words: &[Text]) -> Option<&'static FormText> {
    FORMS.iter().find(|form| form.begins(words))
}

fn push_told(out: &mut String, label: &str, told: &str) -> Result<bool, NoMemory> {
    out.push_str(", ")?;
    out.push_str(label)?;
    out.push_str(told)?;
    Ok(true)
}

fn push_no_array(
    alloc: Global,
    out: &mut String,
    whose: &str,
    part: &str,
) -> Result<bool, NoMemory> {
    let label = format!(in alloc; "{whose}{part}")?;
    push_told(out, label.as_str(), " is no array")
}

// The items of an array, of which there are none where it is missing.
fn items<'a>(table: &'a Table, part: &str) -> Option<&'a [Value]> {
    match table.get(part) {
        None => Some(&[]),
        Some(Value::Array(items)) => Some(items.as_slice()),
        Some(_) => None,
    }
}

// The text of a string or a number.
fn text_of(alloc: Global, value: &Value) -> Result<Option<Text>, NoMemory> {
    match value {
        Value::String(text) => Ok(Some(Text::new(alloc, text.as_bytes())?)),
        Value::Integer(number) => {
            let digits = format!(in alloc; "{number}")?;
            Ok(Some(Text::from_vec(digits.into_bytes())))
        }
        _ => Ok(None),
    }
}

// A key with its equals sign, and its value. A path stands in its word as it is written there.
fn word_of(alloc: Global, start: &str, value: Text) -> Result<Text, NoMemory> {
    let written = match start {
        "path=" => written_path(alloc, &value)?,
        _ => value,
    };
    let mut word = start.as_bytes().to_vec(alloc)?;
    word.extend_from_slice(written.bytes())?;
    Ok(Text::from_vec(word))
}

fn first_words(alloc: Global, form: &[&str]) -> Result<Vec<Text>, NoMemory> {
    let mut words = Vec::new(alloc);
    for word in form {
        words.push(Text::new(alloc, word.as_bytes())?)?;
    }
    Ok(words)
}
