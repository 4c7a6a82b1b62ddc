ghost use Rattle.std.specs.Prelude.{◌≤◌, length, IfOk};

use std::io;
use std::io::{ErrorKind, Read};

// Reads again where a signal interrupts the call.
pub(crate) fn read_some<T: Read>(reader: &mut T, into: &mut [u8]) -> io::Result<usize>
    ensures { IfOk result (λ n. n ≤ length into.new) }
{
    for _turn in 0..u64::MAX {
        match reader.read(into) {
            Err(fault) if fault.kind() == ErrorKind::Interrupted => {}
            read => return read,
        }
    }
    Err(io::Error::from(ErrorKind::Interrupted))
}
