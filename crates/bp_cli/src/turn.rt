// One turn of a session: a request is carried out, and its reply is sent.
ghost use Rattle.std.specs.Prelude.{◌≡◌, ◌≤◌, ◌≢◌, false, None, IfOk, IfSome, vec_capacity};
ghost use Rattle.site_types.specs.Lines.{IsFormed};
ghost use Rattle.vault_disk.specs.Disk.{IsLater, IsSame};
ghost use Rattle.vault_disk.specs.Ticks.{IsSameClock};
ghost use Rattle.bp_cli.specs.Gather.{IsLimited};
ghost use Rattle.bp_cli.specs.Words.{IsTimedReading};
ghost use Rattle.bp_cli.specs.Runs.{Acted};
ghost use Rattle.bp_cli.specs.Sessions.{is_last, is_none_given, turn_request, behind_reply, IsTaken, IsTurned};

use crate::frame::reply_framed;
use crate::gather::moment_at;
use crate::words::{TimedRequest, read_timed_request};
use session_text::Asked;
use site_desk::Desk;
use site_types::{Answer, WordFault};
use std::alloc::Global;
use vault_disk::{Clock, Machine, Vault};

fn is_none_given(payload: &[u8]) -> bool
    ensures { result ≡ is_none_given payload.now }
{
    payload.is_empty()
}

// What a request of a session asks for. A payload for a form that takes none is a bad word, the last one.
fn read_turn(alloc: Global, asked: &Asked) -> Result<TimedRequest, WordFault>
    ensures read { IsTimedReading result (turn_request asked.now.words asked.now.payload) }
    ensures limit { IfOk result (λ s. IsLimited s.moment) }
    ensures formed { IfOk result (λ s. IsFormed s.request) }
{
    let words = asked.words.as_slice();
    let timed = read_timed_request(alloc, words)?;
    if timed.request.takes_payload() || is_none_given(asked.payload.bytes()) {
        return Ok(timed);
    }
    Err(WordFault::Bad {
        index: words.len() as u64,
    })
}

/// Answers a request of a session. None: no memory was left for reading its words.
pub fn answer_request<V: Vault, C: Clock>(
    alloc: Global,
    desk: &mut Desk<V>,
    asked: &Asked,
    clock: &mut C,
) -> Option<Answer>
    requires running { desk.old.stopped ≡ false }
    ensures acted { IfSome result (λ a. Acted (IsTaken asked.now.words asked.now.payload (V.disk desk.old.vault) (V.disk desk.new.vault) (C.ticks clock.old) (C.ticks clock.new)) desk.old.state desk.new.state (V.disk desk.old.vault) (V.disk desk.new.vault) a) }
    ensures unread { result ≡ None → (desk.new ≡ desk.old) × (clock.new ≡ clock.old) }
    ensures running { IfSome result (λ a. a ≢ Answer.DiskFault → desk.new.stopped ≡ false) }
    ensures same { IsSame (V.disk desk.old.vault) (V.disk desk.new.vault) }
    ensures clock { IsSameClock (C.ticks clock.old) (C.ticks clock.new) }
{
    let timed = match read_turn(alloc, asked) {
        Ok(timed) => timed,
        Err(fault) => match fault {
            WordFault::Bad { index } => return Some(Answer::BadRequest { index }),
            WordFault::NoMemory => return None,
        },
    };
    match moment_at(timed.moment, clock) {
        Ok(moment) => Some(desk.step(alloc, &timed.request, asked.payload.bytes(), moment)),
        Err(_) => Some(Answer::ClockFault),
    }
}

/// How a session goes on behind a request.
#[derive(Clone, Copy, Debug)]
pub enum Turned {
    On,
    /// It was answered, and the session is over with this status.
    Over { status: u8 },
    /// No memory was left for reading it, and the session is over with this status.
    Closed { status: u8 },
}

// A fault of the disk, the source, the output or the clock ends a session.
fn is_last(status: u8) -> bool
    ensures { result ≡ is_last status }
{
    matches!(status, 18 | 19 | 21 | 20)
}

fn behind_reply(status: u8) -> Turned
    ensures { result ≡ behind_reply status }
{
    if is_last(status) {
        Turned::Over { status }
    } else {
        Turned::On
    }
}

/// Answers a request of a session and sends the reply.
pub fn take_turn<M: Machine, C: Clock>(
    alloc: Global,
    desk: &mut Desk<M>,
    head: &mut Vec<u8>,
    asked: &Asked,
    clock: &mut C,
) -> Turned
    requires running { desk.old.stopped ≡ false }
    requires room { 128 ≤ vec_capacity head.old }
    ensures turns { IsTurned asked.now.words asked.now.payload desk.old.state desk.new.state (M.disk desk.old.vault) (M.disk desk.new.vault) (C.ticks clock.old) (C.ticks clock.new) result }
    ensures running { result ≡ Turned.On → desk.new.stopped ≡ false }
    ensures later { IsLater (M.disk desk.old.vault) (M.disk desk.new.vault) }
    ensures room { 128 ≤ vec_capacity head.new }
    ensures clock { IsSameClock (C.ticks clock.old) (C.ticks clock.new) }
{
    match answer_request(alloc, desk, asked, clock) {
        Some(answer) => behind_reply(reply_framed(alloc, desk, head, &answer)),
        None => Turned::Closed {
            status: reply_framed(alloc, desk, head, &Answer::OutOfMemory),
        },
    }
}
