// Trusted: that reads and writes are at their offsets and a cut sets the length, that a synced file is durable, and its name
// too once its folder is, that no other process has the folder while its file 0 is locked, that what is made is its owner's
// alone, and that what is sent is written to standard output.
ghost use Rattle.std.specs.Prelude.{◌≡◌, ◌+◌, ◌<◌, ◌≤◌, length, vec_len, IfOk, IfSome};

use crate::faults::counted;
use crate::folder_path::folders_of;
use crate::retried::read_some;
use crate::told::{Act, Place, told, told_of_reply};
use crate::{Failed, Machine, Vault};
use std::fs::{DirBuilder, File, OpenOptions};
use std::io::{Eprint, Read};
use std::os::unix::fs::{DirBuilderExt, FileExt, OpenOptionsExt};
use std::rt::Files;
use std::{fs, io};

const LIMIT: u64 = (1 << 63) - 1;

// A vault holds backups, so what is made of it is for its owner alone. What is there keeps its mode.
const FOLDER_MODE: u32 = 0o700;

const FILE_MODE: u32 = 0o600;

#[derive(Drop)]
struct Folder<R: Files<File = File> + Eprint + AllocGlobal + Drop> {
    rt: R,
    path: String,
    // Each file that is open, with its number. Its name is durable once the folder was synced after it was opened.
    files: Vec<(u32, File)>,
    is_settled: bool,
    is_broken: bool,
    // No vault was there: one is made by the first sync.
    is_new: bool,
}

impl<R: Files<File = File> + Eprint + AllocGlobal + Drop> Folder<R> {
    // Where the file stands among those that are open. One that doesn't exist is made, or is none.
    fn place_of(&mut self, number: u32, is_made: bool) -> io::Result<Option<usize>>
        ensures { IfOk result (λ found. IfSome found (λ place. place < vec_len self.new.files)) }
    {
        self.enter()?;
        if let Some(place) = self.files.iter().position(|opened| opened.0 == number) {
            return Ok(Some(place));
        }
        let file = match self.open(number, is_made) {
            Err(fault) if !is_made && fault.kind() == io::ErrorKind::NotFound => return Ok(None),
            opened => self.told(Act::Open, number, opened)?,
        };
        self.files.push((number, file))?;
        self.is_settled = false;
        Ok(Some(self.files.len() - 1))
    }

    // The file, which is made where it is missing.
    fn file(&mut self, number: u32) -> io::Result<&File> {
        match self.place_of(number, true)? {
            Some(place) => Ok(&self.files[place].1),
            None => Err(io::Error::from(io::ErrorKind::NotFound)),
        }
    }

    // At the first call the folder is made where it is missing, and locked.
    fn enter(&mut self) -> io::Result<()> {
        if self.is_broken {
            return Err(io::Error::from(io::ErrorKind::Other));
        }
        if self.files.is_empty() {
            self.is_broken = true;
            let made = make_folder(&self.rt, self.path.as_str());
            told(&self.rt, Act::Make, Place::Folder(self.path.as_str()), made)?;
            let file = self.told(Act::Open, 0, self.open(0, true))?;
            self.told(Act::Lock, 0, file.try_lock().map_err(io::Error::from))?;
            self.is_new = file.metadata()?.len() == 0;
            self.files.push((0, file))?;
            self.is_broken = false;
        }
        Ok(())
    }

    fn open(&self, number: u32, is_made: bool) -> io::Result<File> {
        let path = format!(in self.rt.alloc(); "{}", self.place(number))?;
        let mut options = OpenOptions::new();
        options
            .read(true)
            .write(true)
            .create(is_made)
            .mode(FILE_MODE);
        options.open(&self.rt, path.as_str())
    }

    fn read(&mut self, number: u32, at: u64, into: &mut [u8]) -> io::Result<usize>
        ensures bound { IfOk result (λ n. n ≤ length into.new) }
        ensures fits { IfOk result (λ n. at + n < 18446744073709551616) }
    {
        let Some(place) = self.place_of(number, false)? else {
            return Ok(0);
        };
        let room = into.len().min((u64::MAX - at) as usize);
        let read = read_some(&mut FileAt(&self.files[place].1, at), &mut into[..room]);
        self.told(Act::Read, number, read)
    }

    // A write of nothing past the end makes the file longer too.
    fn write(&mut self, number: u32, at: u64, bytes: &[u8]) -> io::Result<()> {
        if at > LIMIT || bytes.len() as u64 > LIMIT - at {
            return Err(io::Error::from(io::ErrorKind::FileTooLarge));
        }
        let file = self.file(number)?;
        let written = if bytes.is_empty() && file.metadata()?.len() < at {
            file.set_len(at)
        } else {
            file.write_all_at(bytes, at)
        };
        self.told(Act::Write, number, written)
    }

    fn cut(&mut self, number: u32, length: u64) -> io::Result<()> {
        let cut = self.file(number)?.set_len(length);
        self.told(Act::Cut, number, cut)
    }

    // A sync that fails is final, since the system may have dropped what was written.
    fn sync(&mut self, number: u32) -> io::Result<()> {
        if let Some(place) = self.place_of(number, false)? {
            self.is_broken = true;
            let synced = self.files[place].1.sync_all();
            self.told(Act::Sync, number, synced)?;
            if !self.is_settled {
                self.told(Act::Sync, number, sync_folder(&self.rt, self.path.as_str()))?;
                self.is_settled = true;
            }
            self.is_broken = false;
            if self.is_new {
                self.is_new = false;
                let _ = eprintln!(self.rt; "bpdesk: made a new vault in {}", self.path);
            }
        }
        Ok(())
    }

    fn length(&mut self, number: u32) -> io::Result<u64>
        ensures { IfOk result (λ length. length ≤ 9223372036854775807) }
    {
        let Some(place) = self.place_of(number, false)? else {
            return Ok(0);
        };
        let about = self.files[place].1.metadata();
        match self.told(Act::Read, number, about)?.len() {
            length if length <= LIMIT => Ok(length),
            _ => Err(io::Error::from(io::ErrorKind::FileTooLarge)),
        }
    }

    fn place(&self, number: u32) -> Place<'_> {
        Place::File(self.path.as_str(), number)
    }

    fn told<T: Drop>(&self, act: Act, number: u32, done: io::Result<T>) -> io::Result<T>
        ensures { result ≡ done }
    {
        told(&self.rt, act, self.place(number), done)
    }
}

/// A machine over a real folder. The file of number n is `n.nbv` in it, and sends go to standard output.
///
/// It tells nothing of content, and counts its faults. Nothing is touched before the first call of the vault. That call
/// makes the folder where it is missing, and takes a lock on it for as long as the machine is there. Each fault is said in
/// one line on standard error, and so is a vault that is made. Where another process holds the lock, or the folder can't be
/// used, and after a sync that failed, every further call of the vault fails.
#[derive(Drop)]
pub struct FolderMachine<R: Files<File = File> + Print + Eprint + AllocGlobal + Drop> {
    folder: Folder<R>,
    faults: u64,
    send_faults: u64,
}

impl<R: Files<File = File> + Print + Eprint + AllocGlobal + Drop> FolderMachine<R> {
    /// A machine over the folder of this path. Nothing is touched yet.
    pub fn new(rt: R, path: String) -> Self
        ensures faults { (⟦<FolderMachine<R> as Vault>⟧.disk result).faults ≡ 0 }
        ensures send_faults { (⟦<FolderMachine<R> as Vault>⟧.disk result).send_faults ≡ 0 }
    {
        let files = Vec::new(rt.alloc());
        FolderMachine {
            folder: Folder {
                rt,
                path,
                files,
                is_settled: false,
                is_broken: false,
                is_new: false,
            },
            faults: 0,
            send_faults: 0,
        }
    }
}

impl<R: Files<File = File> + Print + Eprint + AllocGlobal + Drop> Vault for FolderMachine<R> {
    ghost use Rattle.vault_disk.specs.Steps.{silent};

    ghost disk = { λ m. silent m.faults m.send_faults };

    ghost reads_count = { λ m told. absurd told };

    ghost counts_now = { λ m t c told le left. absurd told };

    ghost only_now = { λ m c b told left. absurd told };

    fn read(&mut self, file: u32, at: u64, into: &mut [u8]) -> Result<usize, Failed> {
        counted(self.folder.read(file, at, into), &mut self.faults)
    }

    fn write_at(&mut self, file: u32, at: u64, bytes: &[u8]) -> Result<(), Failed> {
        counted(self.folder.write(file, at, bytes), &mut self.faults)
    }

    fn cut(&mut self, file: u32, length: u64) -> Result<(), Failed> {
        counted(self.folder.cut(file, length), &mut self.faults)
    }

    fn sync(&mut self, file: u32) -> Result<(), Failed> {
        counted(self.folder.sync(file), &mut self.faults)
    }

    fn length(&mut self, file: u32) -> Result<u64, Failed> {
        counted(self.folder.length(file), &mut self.faults)
    }
}

impl<R: Files<File = File> + Print + Eprint + AllocGlobal + Drop> Machine for FolderMachine<R> {
    fn send(&mut self, bytes: &[u8]) -> Result<(), Failed> {
        let sent = Print::write_all(&self.folder.rt, bytes);
        counted(told_of_reply(&self.folder.rt, sent), &mut self.send_faults)
    }
}

// Makes a folder where it is missing, and those above it. The one above each that is made is synced, so that none is lost
// with the machine.
fn make_folder(rt: &(impl Files<File = File> + AllocGlobal), path: &str) -> io::Result<()> {
    if path.is_empty() {
        return Err(io::Error::from(io::ErrorKind::NotFound));
    }
    for (folder, above) in folders_of(rt.alloc(), path)? {
        if fs::metadata(rt, folder).is_err() {
            match DirBuilder::new().mode(FOLDER_MODE).create(rt, folder) {
                // Another process may have made it since.
                Err(fault) if fault.kind() != io::ErrorKind::AlreadyExists => return Err(fault),
                _ => sync_folder(rt, above)?,
            }
        }
    }
    Ok(())
}

fn sync_folder(rt: &impl Files<File = File>, path: &str) -> io::Result<()> {
    fs::open(rt, path)?.sync_all()
}

// A file from this offset on.
#[derive(Drop)]
struct FileAt<'a>(&'a File, u64);

impl Read for FileAt<'_> {
    fn read(&mut self, into: &mut [u8]) -> io::Result<usize> {
        self.0.read_at(into, self.1)
    }
}
