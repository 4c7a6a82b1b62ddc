// Trusted: that the moment is that of the system's clock.
ghost use Rattle.std.specs.Prelude.{◌≡◌, ◌≤◌, IfOk};

use crate::faults::counted;
use crate::{Clock, Failed};
use std::io;
use std::time::{Clock as Time, SystemTime, UNIX_EPOCH};

const LAST_MOMENT: u64 = 250_000_000_000;

/// The clock of the system. It tells nothing, and counts its faults. A clock that stands before 1970 or past moment
/// 250,000,000,000 is a fault.
#[derive(Drop)]
pub struct SystemClock<R: Time + Drop> {
    rt: R,
    faults: u64,
}

impl<R: Time + Drop> SystemClock<R> {
    /// The clock of this runtime.
    pub fn new(rt: R) -> Self
        ensures faults { (⟦<SystemClock<R> as Clock>⟧.ticks result).faults ≡ 0 }
    {
        SystemClock { rt, faults: 0 }
    }
}

impl<R: Time + Drop> Clock for SystemClock<R> {
    ghost use Rattle.vault_disk.specs.Ticks.{silent_ticks};

    ghost ticks = { λ c. silent_ticks c.faults };

    fn now(&mut self) -> Result<u64, Failed> {
        counted(moment(&self.rt), &mut self.faults)
    }
}

fn moment(rt: &impl Time) -> io::Result<u64>
    ensures { IfOk result (λ m. m ≤ 250000000000) }
{
    match SystemTime::now(rt)?.duration_since(UNIX_EPOCH) {
        Ok(passed) if passed.as_secs() <= LAST_MOMENT => Ok(passed.as_secs()),
        _ => Err(io::Error::from(io::ErrorKind::InvalidData)),
    }
}
