// The requests of a session, one after another.
//
// The last request without its line feed ends the session without another read. Only an end of the source shows that such a
// line is whole; a terminal, or a source that can be read again behind its end, would else be waited for once more.
ghost use Rattle.std.specs.Prelude.{◌≡◌, ◌<◌, ◌≤◌, Some, None, [], ◌++◌, length, take, IfOk, vec_capacity};
ghost use Rattle.vault_disk.specs.Input.{IsSameInput};
ghost use Rattle.vault_disk.specs.Steps.{Rose};
ghost use Rattle.site_types.specs.Limits.{payload_limit};
ghost use Rattle.session_text.specs.Turns.{line_limit, line_end, payload_size, words_before, asked_words, last_index};
ghost use Rattle.session_text.specs.Session.{IsCut, IsLast, IsNext, IsWhole, IsInTurn, IsShort};

use crate::NoMemory;
use crate::ahead::Ahead;
use crate::line::{Line, LineFault, cut_return, read_line};
use crate::payload::{Filled, fill};
use crate::seek::{Sought, seek_line};
use site_types::{ListOf, Text};
use std::alloc::Global;
use std::marker::Model;
use vault_disk::{Source, zeros};

const BLOCK: usize = 65_536;

/// A request of a session: its words, and the payload that its line names.
#[derive(Drop)]
pub struct Asked {
    /// The words of the line, without the one that names the payload.
    pub words: ListOf<Text>,
    /// The payload; empty where the line names none.
    pub payload: Text,
}

/// What came next in a session.
#[derive(Drop)]
pub enum Next {
    Request(Asked),
    /// The last request: the source has ended behind its line, which has no line feed. Nothing is to be asked of the source any more.
    Last(Asked),
    /// A fault in the framing, at the word of the line with this index. The session can't go on.
    Broken { index: u64 },
    /// The source has ended.
    End,
    /// A read failed. What was read before stays ahead.
    Failed,
    /// There was no memory for what was to be read.
    NoMemory,
}

// The front of these bytes, with room for a payload of this size.
fn front_of(alloc: Global, bytes: &[u8], size: usize) -> Result<Vec<u8>, NoMemory>
    ensures front { IfOk result (λ v. v.items ≡ take size bytes.now) }
    ensures room { IfOk result (λ v. size ≤ vec_capacity v) }
{
    let mut front = Vec::with_capacity(alloc, size)?;
    front.extend_from_slice(&bytes[..bytes.len().min(size)])?;
    Ok(front)
}

// Takes the payload of a line that was read and that ends here.
fn take_payload<S: Source>(
    alloc: Global,
    source: &mut S,
    ahead: &mut Ahead,
    stalled: &mut Vec<u8>,
    block: &mut [u8],
    end: usize,
    line: Line,
) -> Next
    requires room { 0 < length block.old }
    requires new { stalled.old.items ≡ [] }
    requires within { end < length ahead.old }
    requires ends { line_end ahead.old ≡ Some end }
    requires size { payload_size (words_before end ahead.old) ≡ Some line.size }
    requires short { line.size ≤ payload_limit }
    requires words { line.words ≡ asked_words (words_before end ahead.old) }
    requires index { line.index ≡ last_index (words_before end ahead.old) }
    ensures cut { (S.input source.old).tells → IsCut (ahead.old ++ (S.input source.old).left) result (ahead.new ++ stalled.new.items) (S.input source.new).left }
    ensures short { IsShort result }
    ensures same { IsSameInput (S.input source.old) (S.input source.new) }
    ensures failed { result ≡ Next.Failed → Rose (S.input source.old).faults (S.input source.new).faults }
{
    let bytes = ahead.bytes();
    let start = end + 1;
    let Ok(mut payload) = front_of(alloc, &bytes[start..], line.size) else {
        return Next::NoMemory;
    };
    match fill(&mut payload, line.size, source, block) {
        Filled::Whole => {
            ahead.skip(ahead.bytes().len().min(start + line.size));
            Next::Request(Asked {
                words: line.words,
                payload: Text::from_vec(payload),
            })
        }
        Filled::Ended => {
            ahead.truncate(start);
            *stalled = payload;
            Next::Broken { index: line.index }
        }
        Filled::Failed => {
            ahead.truncate(start);
            *stalled = payload;
            Next::Failed
        }
    }
}

// Takes the request whose line ends here.
fn take_request<S: Source>(
    alloc: Global,
    source: &mut S,
    ahead: &mut Ahead,
    stalled: &mut Vec<u8>,
    block: &mut [u8],
    end: usize,
) -> Next
    requires room { 0 < length block.old }
    requires new { stalled.old.items ≡ [] }
    requires within { end < length ahead.old }
    requires ends { line_end ahead.old ≡ Some end }
    ensures cut { (S.input source.old).tells → IsCut (ahead.old ++ (S.input source.old).left) result (ahead.new ++ stalled.new.items) (S.input source.new).left }
    ensures short { IsShort result }
    ensures same { IsSameInput (S.input source.old) (S.input source.new) }
    ensures failed { result ≡ Next.Failed → Rose (S.input source.old).faults (S.input source.new).faults }
{
    match read_line(alloc, cut_return(&ahead.bytes()[..end])) {
        Ok(line) => take_payload(alloc, source, ahead, stalled, block, end, line),
        Err(LineFault::Bad { index }) => Next::Broken { index },
        Err(LineFault::NoMemory) => Next::NoMemory,
    }
}

// Takes what is left where the source has ended.
fn take_last(alloc: Global, ahead: &mut Ahead) -> Next
    requires short { length ahead.old ≤ line_limit }
    requires no_end { line_end ahead.old ≡ None }
    ensures last { IsLast ahead.old result ahead.new }
    ensures short { IsShort result }
{
    let bytes = ahead.bytes();
    if bytes.is_empty() {
        return Next::End;
    }
    match read_line(alloc, bytes) {
        Ok(line) if line.size == 0 => {
            ahead.skip(ahead.bytes().len());
            Next::Last(Asked {
                words: line.words,
                payload: Text::from_vec(Vec::new(alloc)),
            })
        }
        Ok(line) => Next::Broken { index: line.index },
        Err(LineFault::Bad { index }) => Next::Broken { index },
        Err(LineFault::NoMemory) => Next::NoMemory,
    }
}

fn take_next<S: Source>(
    alloc: Global,
    source: &mut S,
    ahead: &mut Ahead,
    stalled: &mut Vec<u8>,
    block: &mut [u8],
) -> Next
    requires room { 0 < length block.old }
    requires new { stalled.old.items ≡ [] }
    ensures cut { (S.input source.old).tells → IsCut (ahead.old ++ (S.input source.old).left) result (ahead.new ++ stalled.new.items) (S.input source.new).left }
    ensures short { IsShort result }
    ensures same { IsSameInput (S.input source.old) (S.input source.new) }
    ensures failed { result ≡ Next.Failed → Rose (S.input source.old).faults (S.input source.new).faults }
{
    match seek_line(ahead, source, block) {
        Sought::Line { end } => take_request(alloc, source, ahead, stalled, block, end),
        Sought::TooLong => Next::Broken { index: 0 },
        Sought::Ended => take_last(alloc, ahead),
        Sought::Failed => Next::Failed,
        Sought::NoMemory => Next::NoMemory,
    }
}

/// The text of a session, as far as it was read ahead. Contracts see the bytes that were read and not handed on yet.
#[derive(Drop)]
pub struct SessionText {
    ahead: Ahead,
    // behind `ahead`: what was read of a payload before a read failed
    stalled: Vec<u8>,
    block: Vec<u8>,
}

impl Model for SessionText {
    ghost use Rattle.std.specs.Prelude.{◌<◌, ◌++◌, List, ℕ, length};

    ghost Value = { List ℕ };

    ghost view = { λ t. t.ahead ++ t.stalled.items };

    ghost invariant = { λ t. 0 < length t.block.items };
}

impl SessionText {
    /// A session of which nothing was read yet. Without memory for a block of 65,536 bytes it is refused.
    pub fn new(alloc: Global) -> Result<SessionText, NoMemory>
        ensures { IfOk result (λ text. text ≡ []) }
    {
        Ok(SessionText {
            ahead: Ahead::new(alloc),
            stalled: Vec::new(alloc),
            block: zeros(alloc, BLOCK)?,
        })
    }

    /// The next request of the session. The source is read by blocks of 65,536 bytes until a line ends, and from then on no further than the end of its payload.
    pub fn next<S: Source>(&mut self, alloc: Global, source: &mut S) -> Next
        ensures next { (S.input source.old).tells → IsNext (self.old ++ (S.input source.old).left) result self.new (S.input source.new).left }
        ensures whole { (S.input source.old).tells → IsWhole (self.old ++ (S.input source.old).left) result self.new (S.input source.new).left }
        ensures turns { (S.input source.old).tells → IsInTurn (self.old ++ (S.input source.old).left) result (self.new ++ (S.input source.new).left) }
        ensures short { IsShort result }
        ensures same { IsSameInput (S.input source.old) (S.input source.new) }
        ensures failed { result ≡ Next.Failed → Rose (S.input source.old).faults (S.input source.new).faults }
    {
        if self.ahead.append(&self.stalled).is_err() {
            return Next::NoMemory;
        }
        self.stalled.clear();
        take_next(
            alloc,
            source,
            &mut self.ahead,
            &mut self.stalled,
            &mut self.block,
        )
    }
}
