// Lines on standard error for a person: what the system was asked for, on which file or folder, and why it failed.
ghost use Rattle.std.specs.Prelude.{◌≡◌};

use std::io::{Eprint, ErrorKind};
use std::{fmt, io};

// What the system was asked for.
#[derive(Clone, Copy)]
pub(crate) enum Act {
    Make,
    Open,
    Lock,
    Read,
    Write,
    Cut,
    Sync,
}

impl fmt::Display for Act {
    fn fmt<W: fmt::Write>(&self, f: &mut fmt::Formatter<W>) -> fmt::Result {
        f.write_str(match self {
            Act::Make => "make",
            Act::Open => "open",
            Act::Lock => "lock",
            Act::Read => "read",
            Act::Write => "write",
            Act::Cut => "cut",
            Act::Sync => "sync",
        })
    }
}

// A folder, or the file of a number in it.
#[derive(Clone, Copy)]
pub(crate) enum Place<'a> {
    Folder(&'a str),
    File(&'a str, u32),
}

impl fmt::Display for Place<'_> {
    fn fmt<W: fmt::Write>(&self, f: &mut fmt::Formatter<W>) -> fmt::Result {
        match self {
            Place::Folder(folder) => write!(f, "{folder}"),
            Place::File(folder, number) => write!(f, "{folder}/{number}.nbv"),
        }
    }
}

// What a call gave, where a failure is told.
pub(crate) fn told<T: Drop>(
    rt: &(impl Eprint + AllocGlobal),
    act: Act,
    place: Place<'_>,
    done: io::Result<T>,
) -> io::Result<T>
    ensures { result ≡ done }
{
    if let Err(fault) = &done {
        let _ = tell(rt, act, place, fault);
    }
    done
}

fn tell(
    rt: &(impl Eprint + AllocGlobal),
    act: Act,
    place: Place<'_>,
    fault: &io::Error,
) -> io::Result<()> {
    let text = format!(in rt.alloc(); "{fault}")?;
    let reason = without_number(text.as_str());
    match (act, place) {
        (_, Place::Folder("")) => eprintln!(rt; "bpdesk: the folder has no name"),
        (Act::Lock, Place::File(folder, _)) if fault.kind() == ErrorKind::WouldBlock => {
            eprintln!(rt; "bpdesk: the vault {folder} is in use by another process")
        }
        (Act::Sync, _) => {
            eprintln!(rt; "bpdesk: cannot sync {place}: {reason}; the request may have been done")
        }
        _ => eprintln!(rt; "bpdesk: cannot {act} {place}: {reason}"),
    }
}

// What a send gave, where a failure is told.
pub(crate) fn told_of_reply(
    rt: &(impl Eprint + AllocGlobal),
    done: io::Result<()>,
) -> io::Result<()>
    ensures { result ≡ done }
{
    if let Err(fault) = &done {
        let _ = tell_of(
            rt,
            "the reply could not be written",
            "; the request may have been done",
            fault,
        );
    }
    done
}

// What a read of the input gave, where a failure is told. One that a signal cut off is made again.
pub(crate) fn told_of_input(
    rt: &(impl Eprint + AllocGlobal),
    done: io::Result<usize>,
) -> io::Result<usize>
    ensures { result ≡ done }
{
    if let Err(fault) = &done
        && fault.kind() != ErrorKind::Interrupted
    {
        let _ = tell_of(rt, "the input could not be read", "", fault);
    }
    done
}

fn tell_of(
    rt: &(impl Eprint + AllocGlobal),
    what: &str,
    behind: &str,
    fault: &io::Error,
) -> io::Result<()> {
    let text = format!(in rt.alloc(); "{fault}")?;
    let reason = without_number(text.as_str());
    eprintln!(rt; "bpdesk: {what}: {reason}{behind}")
}

// The system's reason, which the library ends with its number.
fn without_number(text: &str) -> &str {
    match text.split_once(" (os error ") {
        Some((reason, _)) => reason,
        None => text,
    }
}
