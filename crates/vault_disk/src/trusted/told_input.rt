// Trusted: that a read gives what the reader gave.
use crate::kept::Kept;
use crate::told::told_of_input;
use std::io;
use std::io::{Eprint, Read};

/// Standard input, which says on standard error that it waits for a terminal, and why a read of it failed.
#[derive(Drop)]
pub struct ToldInput<T: Read + Drop, R: Eprint + AllocGlobal + Drop> {
    reader: T,
    rt: R,
    is_awaited: bool,
    kept: Kept,
}

impl<T: Read + Drop, R: Eprint + AllocGlobal + Drop> ToldInput<T, R> {
    /// An input over this reader. Where it is a payload that a person types, that is told before the first read. It keeps what it
    /// gives where a refused payload is to be explained.
    pub fn new(rt: R, reader: T, is_awaited: bool, is_kept: bool) -> Self {
        let kept = if is_kept {
            Kept::all(rt.alloc())
        } else {
            Kept::nothing()
        };
        ToldInput {
            reader,
            rt,
            is_awaited,
            kept,
        }
    }

    /// What it gave, where all of it was kept.
    pub fn kept(&self) -> Option<&[u8]> {
        self.kept.bytes()
    }
}

impl<T: Read + Drop, R: Eprint + AllocGlobal + Drop> Read for ToldInput<T, R> {
    fn read(&mut self, into: &mut [u8]) -> io::Result<usize> {
        if self.is_awaited {
            self.is_awaited = false;
            let _ = eprintln!(self.rt;
                "bpdesk: the payload is read from the terminal, to its end (Ctrl-D)"
            );
        }
        let count = told_of_input(&self.rt, self.reader.read(into))?;
        self.kept.add(&into[..count]);
        Ok(count)
    }
}
