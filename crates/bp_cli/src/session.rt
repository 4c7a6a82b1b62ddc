// A run: a single request or a session, by its words.
ghost use Rattle.std.specs.Prelude.{◌≡◌, true, false, codes, Some, IfOk};
ghost use Rattle.std.specs.Str.{bytes_eq};
ghost use Rattle.site_types.specs.Answers.{text_of};
ghost use Rattle.vault_disk.specs.Disk.{Image, IsLater};
ghost use Rattle.vault_disk.specs.Steps.{IsSameBut};
ghost use Rattle.desk_model.specs.State.{State};
ghost use Rattle.desk_model.specs.Sound.{Sound, KeepsCopies};
ghost use Rattle.vault_ledger.specs.Ledger.{stands};
ghost use Rattle.bp_cli.specs.Words.{is_session, names_session};
ghost use Rattle.bp_cli.specs.Runs.{refusal_of, Delivers, IsStatus, Sent};
ghost use Rattle.bp_cli.specs.Singles.{Ran, RanBad};
ghost use Rattle.bp_cli.specs.Sessions.{framed, RanSession};

use crate::execute::answered;
use crate::frame::{SEND_FAULT, made_text, new_head, write_head};
use crate::serve::serve;
use pool_journal::JournalFault;
use session_text::SessionText;
use site_desk::Desk;
use site_types::{Answer, NoMemory, Text};
use std::alloc::Global;
use vault_disk::{Clock, Machine, Source};

// Sends a text. The status is this number, or 20 where the send fails.
fn deliver<M: Machine>(machine: &mut M, text: &[u8], number: u8) -> u8
    ensures delivers { (M.disk machine.old).tells → Delivers text.now (M.disk machine.old) (M.disk machine.new) result }
    ensures status { IsStatus number (M.disk machine.old) (M.disk machine.new) result }
    ensures same { IsSameBut (M.disk machine.old) (M.disk machine.new) }
{
    match machine.send(text) {
        Ok(()) => number,
        Err(_) => SEND_FAULT,
    }
}

// Sends the text of an answer; where no memory is left for it, that of want of memory.
fn reply<M: Machine>(alloc: Global, machine: &mut M, answer: &Answer) -> u8
    ensures sent { Sent text_of answer.now (M.disk machine.old) (M.disk machine.new) result }
    ensures same { IsSameBut (M.disk machine.old) (M.disk machine.new) }
{
    match answer.ready_text() {
        Some(text) => deliver(machine, text, answer.number()),
        None => match made_text(alloc, answer) {
            Ok(text) => deliver(machine, &text, answer.number()),
            Err(_) => deliver(machine, b"out of memory\n", Answer::OutOfMemory.number()),
        },
    }
}

// Carries out a single request.
fn run_single<M: Machine, S: Source, C: Clock>(
    alloc: Global,
    words: &[Text],
    machine: &mut M,
    source: &mut S,
    clock: &mut C,
) -> u8
    ensures ran { Ran words.now (M.disk machine.old) (M.disk machine.new) (S.input source.old) (S.input source.new) (C.ticks clock.old) (C.ticks clock.new) result }
{
    let (machine, answer) = answered(alloc, words, machine, source, clock);
    reply(alloc, machine, &answer)
}

// The frame of an answer that is sent where there is no desk.
fn frame_of(alloc: Global, answer: &Answer) -> Result<Vec<u8>, NoMemory>
    ensures { IfOk result (λ v. v.items ≡ framed answer.now) }
{
    let text = made_text(alloc, answer)?;
    let mut frame = new_head(alloc)?;
    write_head(&mut frame, answer.number(), text.len());
    frame.extend_from_slice(&text)?;
    Ok(frame)
}

// Answers a session whose vault isn't opened.
fn reply_unopened<M: Machine>(alloc: Global, machine: &mut M, fault: JournalFault) -> u8
    ensures sent { Sent framed (refusal_of fault) (M.disk machine.old) (M.disk machine.new) result }
    ensures same { IsSameBut (M.disk machine.old) (M.disk machine.new) }
{
    match fault {
        JournalFault::NoMemory => deliver(machine, b"1 14\nout of memory\n", 1),
        JournalFault::DiskFault => deliver(machine, b"18 11\ndisk fault\n", 18),
        JournalFault::NotAVault { offset } => {
            match frame_of(alloc, &Answer::NotAVault { offset }) {
                Ok(frame) => deliver(machine, &frame, 22),
                Err(_) => deliver(machine, b"1 14\nout of memory\n", 1),
            }
        }
    }
}

// Serves a session on this machine, and hands it back.
fn session_on<M: Machine, S: Source, C: Clock>(
    alloc: Global,
    machine: M,
    source: &mut S,
    clock: &mut C,
) -> (M, u8)
    ensures session { RanSession (M.disk machine) (M.disk result.0) (S.input source.old) (S.input source.new) (C.ticks clock.old) (C.ticks clock.new) result.1 }
    ensures later { IsLater (M.disk machine) (M.disk result.0) }
{
    let mut machine = machine;
    let (Ok(mut head), Ok(mut text)) = (new_head(alloc), SessionText::new(alloc)) else {
        let status = reply_unopened(alloc, &mut machine, JournalFault::NoMemory);
        return (machine, status);
    };
    match Desk::open_vault(alloc, machine) {
        Ok(mut desk) => {
            let status = serve(alloc, &mut desk, &mut text, &mut head, source, clock);
            (desk.close(), status)
        }
        Err(refused) => {
            let (mut machine, fault) = refused;
            let status = reply_unopened(alloc, &mut machine, fault);
            (machine, status)
        }
    }
}

fn run_session<M: Machine, S: Source, C: Clock>(
    alloc: Global,
    machine: &mut M,
    source: &mut S,
    clock: &mut C,
) -> u8
    ensures session { RanSession (M.disk machine.old) (M.disk machine.new) (S.input source.old) (S.input source.new) (C.ticks clock.old) (C.ticks clock.new) result }
{
    let (_, status) = session_on(alloc, machine, source, clock);
    status
}

fn is_session_word(word: &[u8]) -> bool
    ensures { result ≡ bytes_eq word.now (codes "session") }
{
    word == b"session".as_slice()
}

/// Carries out what the words ask for: a single request, or a session of many.
///
/// The payload of a single request is what the source gives, and its moment is the one that the words name or else the clock's, in
/// seconds since 1970-01-01T00:00:00Z. Its reply is sent, and the status is the answer's number. A session, asked for by the word
/// `session` alone, reads requests from the source, answers one after another with framed replies, and ends with 0 where the source was
/// read to its end. Where a send failed the status is 20.
///
/// Each answer has its cause, over any machine. Over a vault that stands for a state what is sent are the model's answers, from that
/// state on. Wherever the machine stops, the disk stands for the state after the first of the requests, all those of whose replies a
/// byte was sent among them; and whatever state a disk stands for is sound, and each copy kept in it restores the bytes of its image.
pub fn run<M: Machine, S: Source, C: Clock>(
    alloc: Global,
    words: &[Text],
    machine: &mut M,
    source: &mut S,
    clock: &mut C,
) -> u8
    ensures ran { names_session words.now ≡ false → Ran words.now (M.disk machine.old) (M.disk machine.new) (S.input source.old) (S.input source.new) (C.ticks clock.old) (C.ticks clock.new) result }
    ensures session { is_session words.now ≡ true → RanSession (M.disk machine.old) (M.disk machine.new) (S.input source.old) (S.input source.new) (C.ticks clock.old) (C.ticks clock.new) result }
    ensures bad_session { names_session words.now ≡ true → is_session words.now ≡ false → RanBad (M.disk machine.old) (M.disk machine.new) (S.input source.old) (S.input source.new) (C.ticks clock.old) (C.ticks clock.new) result }
    ensures sound { (c : Image) (s : State) → stands c ≡ Some s → Sound s × KeepsCopies s }
{
    match words {
        [word] if is_session_word(word.bytes()) => run_session(alloc, machine, source, clock),
        [word, ..] if is_session_word(word.bytes()) => {
            reply(alloc, machine, &Answer::BadRequest { index: 1 })
        }
        _ => run_single(alloc, words, machine, source, clock),
    }
}
