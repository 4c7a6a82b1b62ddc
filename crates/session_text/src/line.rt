// The words of a line, and the payload that the last of them names.
ghost use Rattle.std.specs.Prelude.{◌≡◌, ◌<◌, ◌≤◌, Some, IfOk, IfSome, length, position};
ghost use Rattle.site_types.specs.Limits.{payload_limit};
ghost use Rattle.session_text.specs.Turns.{line_limit, is_line_feed, line_end, words_of, without_return, size_of, payload_size, is_payload_word, last_word};
ghost use Rattle.session_text.specs.Reads.{IsLine};

use crate::NoMemory;
use site_types::{ListOf, PAYLOAD_LIMIT, Text, read_number};
use std::alloc::Global;

pub(crate) const LINE_LIMIT: usize = 8192;

// What a line asks for.
#[derive(Drop)]
pub(crate) struct Line {
    // without the word that names the payload
    pub(crate) words: ListOf<Text>,
    pub(crate) size: usize,
    // the index of the line's last word
    pub(crate) index: u64,
}

#[derive(Drop)]
pub(crate) enum LineFault {
    // The word with this index names no payload.
    Bad { index: u64 },
    NoMemory,
}

impl From<NoMemory> for LineFault {
    ghost use Rattle.session_text.specs.declared.line.LineFault.TheVariants.{NoMemory};

    ghost from_gives = { λ _ e. e ≡ NoMemory };

    fn from(_: NoMemory) -> Self {
        LineFault::NoMemory
    }
}

fn find_line_feed(bytes: &[u8]) -> Option<usize>
    ensures place { result ≡ position is_line_feed bytes.now }
    ensures within { IfSome result (λ end. end < length bytes.now) }
{
    bytes.iter().position(|byte| *byte == b'\n')
}

// Where the first line ends, if it isn't too long.
pub(crate) fn find_line_end(bytes: &[u8]) -> Option<usize>
    ensures end { result ≡ line_end bytes.now }
    ensures within { IfSome result (λ end. end < length bytes.now) }
{
    find_line_feed(&bytes[..bytes.len().min(LINE_LIMIT + 1)])
}

pub(crate) fn cut_return(line: &[u8]) -> &[u8]
    ensures { result.now ≡ without_return line.now }
{
    if line.ends_with(b"\r") {
        &line[..line.len() - 1]
    } else {
        line
    }
}

fn split_words(alloc: Global, line: &[u8]) -> Result<Vec<Text>, NoMemory>
    ensures words { IfOk result (λ v. v.items ≡ words_of line.now) }
    ensures some { IfOk result (λ v. 0 < length v.items) }
{
    let mut words = Vec::new(alloc);
    for word in line.split(|byte| *byte == b' ') {
        words.push(Text::new(alloc, word)?)?;
    }
    Ok(words)
}

fn size_in(word: &[u8]) -> Option<u64>
    ensures { result ≡ size_of word.now }
{
    match word.strip_prefix(b"payload=") {
        Some(digits) => read_number(digits, PAYLOAD_LIMIT),
        None => Some(0),
    }
}

// Whether the last word names a payload.
fn names_payload(words: &[Text]) -> bool
    ensures { result ≡ is_payload_word (last_word words.now) }
{
    match words.last() {
        Some(word) => word.bytes().starts_with(b"payload="),
        None => false,
    }
}

fn size_named(words: &[Text]) -> Option<u64>
    ensures { result ≡ payload_size words.now }
{
    match words.last() {
        Some(word) => size_in(word.bytes()),
        None => Some(0),
    }
}

// Reads the words of a line.
pub(crate) fn read_line(alloc: Global, line: &[u8]) -> Result<Line, LineFault>
    ensures read { IsLine result (words_of line.now) }
    ensures short { IfOk result (λ line. line.size ≤ payload_limit) }
{
    let mut words = split_words(alloc, line)?;
    let index = words.len() as u64 - 1;
    let Some(size) = size_named(&words) else {
        return Err(LineFault::Bad { index });
    };
    if names_payload(&words) {
        words.pop();
    }
    Ok(Line {
        words: ListOf::from_vec(words),
        size: size as usize,
        index,
    })
}
