// The replies of a session: each text with its frame, the number of the answer and the length of the text.
ghost use Rattle.std.specs.Prelude.{◌≡◌, ◌≤◌, ◌+◌, [], ◌∷◌, ◌++◌, length, IfOk, vec_capacity, vec_len};
ghost use Rattle.std.specs.Fmt.{decimal};
ghost use Rattle.site_types.specs.Answers.{text_of};
ghost use Rattle.vault_disk.specs.Steps.{HasCause, IsSameBut, Sends};
ghost use Rattle.bp_cli.specs.Runs.{Delivers, IsStatus, Sent};
ghost use Rattle.bp_cli.specs.Sessions.{frame, framed};

use itoa::Buffer;
use site_desk::Desk;
use site_types::{Answer, NoMemory};
use std::alloc::Global;
use vault_disk::{Failed, Machine};

/// The status of a run whose send failed.
pub const SEND_FAULT: u8 = 20;

// Room for a frame: two numbers of at most 40 characters, a space and a line feed.
const HEAD: usize = 128;

/// The memory in which the heads of frames are written.
pub fn new_head(alloc: Global) -> Result<Vec<u8>, NoMemory>
    ensures { IfOk result (λ head. 128 ≤ vec_capacity head) }
{
    Vec::with_capacity(alloc, HEAD)
}

fn push(head: &mut Vec<u8>, bytes: &[u8])
    requires room { vec_len head.old + length bytes.now ≤ vec_capacity head.old }
    ensures items { head.new.items ≡ head.old.items ++ bytes.now }
    ensures len { vec_len head.new ≡ vec_len head.old + length bytes.now }
    ensures room { vec_capacity head.old ≤ vec_capacity head.new }
{
    if head.extend_from_slice(bytes).is_err() {
        unreachable!();
    }
}

fn push_number(head: &mut Vec<u8>, number: u64)
    requires room { vec_len head.old + 40 ≤ vec_capacity head.old }
    ensures items { head.new.items ≡ head.old.items ++ decimal number }
    ensures len { vec_len head.new ≤ vec_len head.old + 40 }
    ensures room { vec_capacity head.old ≤ vec_capacity head.new }
{
    push(head, Buffer::new().format(number).as_bytes());
}

/// Writes the head of a frame, in place of what stood there.
pub fn write_head(head: &mut Vec<u8>, number: u8, size: usize)
    requires room { 128 ≤ vec_capacity head.old }
    ensures items { head.new.items ≡ decimal number ++ 32 ∷ (decimal size ++ 10 ∷ []) }
    ensures room { 128 ≤ vec_capacity head.new }
{
    head.clear();
    push_number(head, u64::from(number));
    push(head, b" ");
    push_number(head, size as u64);
    push(head, b"\n");
}

// Sends a text with its frame.
fn send_frame<M: Machine>(
    desk: &mut Desk<M>,
    head: &mut Vec<u8>,
    number: u8,
    text: &[u8],
) -> Result<(), Failed>
    requires room { 128 ≤ vec_capacity head.old }
    ensures state { (M.disk desk.old.vault).tells → desk.new.state ≡ desk.old.state }
    ensures stopped { desk.new.stopped ≡ desk.old.stopped }
    ensures sends { (M.disk desk.old.vault).tells → Sends (frame number text.now) (M.disk desk.old.vault) (M.disk desk.new.vault) result }
    ensures same { IsSameBut (M.disk desk.old.vault) (M.disk desk.new.vault) }
    ensures cause { HasCause (M.disk desk.old.vault).send_faults (M.disk desk.new.vault).send_faults result }
    ensures room { 128 ≤ vec_capacity head.new }
{
    write_head(head, number, text.len());
    match desk.send(head) {
        Ok(()) => desk.send(text),
        Err(failed) => Err(failed),
    }
}

/// The text of an answer that has to be made.
pub fn made_text(alloc: Global, answer: &Answer) -> Result<Vec<u8>, NoMemory>
    ensures { IfOk result (λ v. v.items ≡ text_of answer.now) }
{
    let mut text = Vec::new(alloc);
    answer.write_text(alloc, &mut text)?;
    Ok(text)
}

// Sends a text with its frame. The status is this number, or 20 where the send fails.
fn send_numbered<M: Machine>(desk: &mut Desk<M>, head: &mut Vec<u8>, number: u8, text: &[u8]) -> u8
    requires room { 128 ≤ vec_capacity head.old }
    ensures state { (M.disk desk.old.vault).tells → desk.new.state ≡ desk.old.state }
    ensures stopped { desk.new.stopped ≡ desk.old.stopped }
    ensures delivers { (M.disk desk.old.vault).tells → Delivers (frame number text.now) (M.disk desk.old.vault) (M.disk desk.new.vault) result }
    ensures status { IsStatus number (M.disk desk.old.vault) (M.disk desk.new.vault) result }
    ensures same { IsSameBut (M.disk desk.old.vault) (M.disk desk.new.vault) }
    ensures room { 128 ≤ vec_capacity head.new }
{
    match send_frame(desk, head, number, text) {
        Ok(()) => number,
        Err(_) => SEND_FAULT,
    }
}

/// Sends an answer with its frame, and gives the number that was sent, or 20 where the send failed. Where no memory is left for its
/// text, want of memory is sent in its place.
pub fn reply_framed<M: Machine>(
    alloc: Global,
    desk: &mut Desk<M>,
    head: &mut Vec<u8>,
    answer: &Answer,
) -> u8
    requires room { 128 ≤ vec_capacity head.old }
    ensures state { (M.disk desk.old.vault).tells → desk.new.state ≡ desk.old.state }
    ensures stopped { desk.new.stopped ≡ desk.old.stopped }
    ensures sent { Sent framed answer.now (M.disk desk.old.vault) (M.disk desk.new.vault) result }
    ensures same { IsSameBut (M.disk desk.old.vault) (M.disk desk.new.vault) }
    ensures room { 128 ≤ vec_capacity head.new }
{
    match answer.ready_text() {
        Some(text) => send_numbered(desk, head, answer.number(), text),
        None => match made_text(alloc, answer) {
            Ok(text) => send_numbered(desk, head, answer.number(), &text),
            Err(_) => send_numbered(desk, head, Answer::OutOfMemory.number(), b"out of memory\n"),
        },
    }
}
