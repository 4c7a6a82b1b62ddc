// The kinds of stop that a recording can be asked for.
ghost use Rattle.std.specs.Prelude.{◌≡◌, ℕ, length, replicate, IfOk, OnOk};
ghost use Rattle.vault_disk.specs.Stops.{after_call, stop_of};
ghost use Rattle.vault_disk.specs.Stored.{bytes_of};

use crate::call::Call;
use crate::contents::Contents;
use std::alloc::{AllocError, Global};

// What a stop leaves of the calls on a file since its last sync.
#[derive(Clone, Copy)]
pub(crate) enum Stop {
    Forgets,
    Keeps,
    Scribbles,
    DropsLast,
}

impl Stop {
    pub(crate) fn of(choice: u8) -> Stop
        ensures { result ≡ stop_of choice }
    {
        match choice {
            0 => Stop::Forgets,
            1 => Stop::Keeps,
            2 => Stop::Scribbles,
            _ => Stop::DropsLast,
        }
    }

    // Brings what the stop leaves past one call more, by what the files read as before it.
    pub(crate) fn pass(
        self,
        alloc: Global,
        call: &Call,
        seen: &Contents,
        left: &mut Contents,
    ) -> Result<(), AllocError>
        ensures { OnOk result ((f : ℕ) → bytes_of left.new f ≡ after_call self call.now f (bytes_of seen.now f) (bytes_of left.old f)) }
    {
        match call {
            Call::Wrote(file, at, bytes) => match self {
                Stop::Forgets => Ok(()),
                Stop::Keeps => left.write(*file, *at as usize, bytes.as_slice()),
                Stop::Scribbles => {
                    let marks = scribble(alloc, bytes.as_slice().len())?;
                    left.write(*file, *at as usize, &marks)
                }
                Stop::DropsLast => left.replace(*file, seen.get(*file)),
            },
            Call::Resized(file, length) => match self {
                Stop::Forgets => Ok(()),
                Stop::Keeps => left.resize(*file, *length as usize),
                Stop::Scribbles => left.resize(*file, *length as usize),
                Stop::DropsLast => left.replace(*file, seen.get(*file)),
            },
            Call::Synced(file) => left.replace(*file, seen.get(*file)),
            Call::Sent(_) => Ok(()),
            Call::Other => Ok(()),
        }
    }
}

fn scribble(alloc: Global, count: usize) -> Result<Vec<u8>, AllocError>
    ensures { IfOk result (λ v. v.items ≡ replicate count 165) }
{
    vec![in alloc; 0xA5u8; count]
}
