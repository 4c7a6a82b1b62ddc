// A session: requests are read, answered and their replies sent, one after another.
ghost use Rattle.std.specs.Prelude.{◌≡◌, ◌≤◌, [], false, vec_capacity};
ghost use Rattle.vault_disk.specs.Disk.{IsLater};
ghost use Rattle.bp_cli.specs.Sessions.{last_status, ServesOn};

use crate::frame::reply_framed;
use crate::turn::{Turned, take_turn};
use session_text::{Next, SessionText};
use site_desk::Desk;
use site_types::Answer;
use std::alloc::Global;
use vault_disk::{Clock, Machine, Source};

// The status of a session behind its last request.
fn last_status(turned: Turned) -> u8
    ensures { result ≡ last_status turned }
{
    match turned {
        Turned::On => 0,
        Turned::Over { status } => status,
        Turned::Closed { status } => status,
    }
}

/// Serves a session on a desk, and gives its status.
pub fn serve<M: Machine, S: Source, C: Clock>(
    alloc: Global,
    desk: &mut Desk<M>,
    text: &mut SessionText,
    head: &mut Vec<u8>,
    source: &mut S,
    clock: &mut C,
) -> u8
    requires running { desk.old.stopped ≡ false }
    requires room { 128 ≤ vec_capacity head.old }
    requires new { text.old ≡ [] }
    ensures serves { ServesOn desk.old.state (M.disk desk.old.vault) (M.disk desk.new.vault) (S.input source.old) (S.input source.new) (C.ticks clock.old) (C.ticks clock.new) result }
    ensures later { IsLater (M.disk desk.old.vault) (M.disk desk.new.vault) }
{
    for _ in 0..u64::MAX {
        match text.next(alloc, source) {
            Next::Request(asked) => match take_turn(alloc, desk, head, &asked, clock) {
                Turned::On => {}
                Turned::Over { status } => return status,
                Turned::Closed { status } => return status,
            },
            Next::Last(asked) => {
                return last_status(take_turn(alloc, desk, head, &asked, clock));
            }
            Next::Broken { index } => {
                return reply_framed(alloc, desk, head, &Answer::BadRequest { index });
            }
            Next::End => return 0,
            Next::Failed => return reply_framed(alloc, desk, head, &Answer::ReadFault),
            Next::NoMemory => return reply_framed(alloc, desk, head, &Answer::OutOfMemory),
        }
    }
    // No source gives so many requests; there is no memory to count them.
    reply_framed(alloc, desk, head, &Answer::OutOfMemory)
}
