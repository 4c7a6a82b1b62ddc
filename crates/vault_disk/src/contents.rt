// The bytes of files in memory.
ghost use Rattle.std.specs.Prelude.{◌≡◌, ◌↔◌, IsTrue, ◌==◌, ◌-◌, ◌++◌, length, if◌then◌else◌, ℕ, [], replicate, MatchOption, IfOk, OnOk, OnErr};
ghost use Rattle.vault_disk.specs.Memory.{changed};
ghost use Rattle.vault_disk.specs.Steps.{written, cut_to};
ghost use Rattle.vault_disk.specs.Stored.{bytes_of, HasNo, StandsAt};

use crate::call::Call;
use std::alloc::{AllocError, Global};
use std::marker::Model;

// A file with its number.
#[derive(Drop)]
pub(crate) struct StoredFile {
    number: u32,
    bytes: Vec<u8>,
}

impl Model for StoredFile {
    ghost use Rattle.std.specs.Prelude.{List, ℕ};

    ghost Value = { ℕ × List ℕ };

    ghost view = { λ f. (f.number, f.bytes.items) };
}

impl StoredFile {
    fn copy(&self, alloc: Global) -> Result<StoredFile, AllocError>
        ensures { IfOk result (λ f. f ≡ self.now) }
    {
        Ok(StoredFile {
            number: self.number,
            bytes: self.bytes.to_vec(alloc)?,
        })
    }

    fn is(&self, file: u32) -> bool
        ensures { IsTrue result ↔ (self.now.0 ≡ file) }
    {
        self.number == file
    }

    fn bytes(&self) -> &[u8]
        ensures { result.now ≡ self.now.1 }
    {
        &self.bytes
    }

    fn write(&mut self, at: usize, bytes: &[u8]) -> Result<(), AllocError>
        ensures ok { OnOk result (self.new ≡ (self.old.0, written self.old.1 at bytes.now)) }
        ensures err { OnErr result (self.new ≡ self.old) }
    {
        overwrite(&mut self.bytes, at, bytes)
    }

    fn resize(&mut self, length: usize) -> Result<(), AllocError>
        ensures ok { OnOk result (self.new ≡ (self.old.0, cut_to self.old.1 length)) }
        ensures err { OnErr result (self.new ≡ self.old) }
    {
        self.bytes.resize(length, 0)
    }
}

// The bytes of each file. One that isn't there has none.
#[derive(Drop)]
pub(crate) struct Contents {
    alloc: Global,
    files: Vec<StoredFile>,
}

impl Model for Contents {
    ghost use Rattle.std.specs.Prelude.{List, ℕ};

    ghost Value = { List (ℕ × List ℕ) };

    ghost view = { λ c. c.files.items };
}

impl Contents {
    pub(crate) fn new(alloc: Global) -> Contents
        ensures { result ≡ [] }
    {
        Contents {
            alloc,
            files: Vec::new(alloc),
        }
    }

    pub(crate) fn copy(&self) -> Result<Contents, AllocError>
        ensures { IfOk result (λ c. c ≡ self.now) }
    {
        Ok(Contents {
            alloc: self.alloc,
            files: copies(self.alloc, &self.files)?,
        })
    }

    // The bytes of a file.
    pub(crate) fn get(&self, file: u32) -> &[u8]
        ensures { result.now ≡ bytes_of self.now file }
    {
        match place_of(&self.files, file) {
            Some(place) => self.files[place].bytes(),
            None => &[],
        }
    }

    // Where the file stands, which is made without bytes where it is missing.
    fn place_for(&mut self, file: u32) -> Result<usize, AllocError>
        ensures place { IfOk result (λ i. StandsAt self.new file i) }
        ensures same { (f : ℕ) → bytes_of self.new f ≡ bytes_of self.old f }
    {
        if let Some(place) = place_of(&self.files, file) {
            return Ok(place);
        }
        let place = self.files.len();
        self.files.push(StoredFile {
            number: file,
            bytes: Vec::new(self.alloc),
        })?;
        Ok(place)
    }

    pub(crate) fn write(&mut self, file: u32, at: usize, bytes: &[u8]) -> Result<(), AllocError>
        ensures ok { OnOk result ((f : ℕ) → bytes_of self.new f ≡ (if file == f then written (bytes_of self.old f) at bytes.now else bytes_of self.old f)) }
        ensures err { OnErr result ((f : ℕ) → bytes_of self.new f ≡ bytes_of self.old f) }
    {
        let place = self.place_for(file)?;
        self.files[place].write(at, bytes)?;
        Ok(())
    }

    pub(crate) fn resize(&mut self, file: u32, length: usize) -> Result<(), AllocError>
        ensures ok { OnOk result ((f : ℕ) → bytes_of self.new f ≡ (if file == f then cut_to (bytes_of self.old f) length else bytes_of self.old f)) }
        ensures err { OnErr result ((f : ℕ) → bytes_of self.new f ≡ bytes_of self.old f) }
    {
        let place = self.place_for(file)?;
        self.files[place].resize(length)?;
        Ok(())
    }

    // Does what the call does to the files.
    pub(crate) fn apply(&mut self, call: &Call) -> Result<(), AllocError>
        ensures ok { OnOk result ((f : ℕ) → bytes_of self.new f ≡ changed call.now f (bytes_of self.old f)) }
        ensures err { OnErr result ((f : ℕ) → bytes_of self.new f ≡ bytes_of self.old f) }
    {
        match call {
            Call::Wrote(file, at, bytes) => self.write(*file, *at as usize, bytes.as_slice()),
            Call::Resized(file, length) => self.resize(*file, *length as usize),
            Call::Synced(_) => Ok(()),
            Call::Sent(_) => Ok(()),
            Call::Other => Ok(()),
        }
    }

    pub(crate) fn replace(&mut self, file: u32, bytes: &[u8]) -> Result<(), AllocError>
        ensures { OnOk result ((f : ℕ) → bytes_of self.new f ≡ (if file == f then bytes.now else bytes_of self.old f)) }
    {
        self.resize(file, 0)?;
        self.write(file, 0, bytes)
    }
}

fn copies(alloc: Global, files: &[StoredFile]) -> Result<Vec<StoredFile>, AllocError>
    ensures { IfOk result (λ v. v.items ≡ files.now) }
{
    let mut all = Vec::new(alloc);
    for stored in files {
        all.push(stored.copy(alloc)?)?;
    }
    Ok(all)
}

fn place_of(files: &[StoredFile], file: u32) -> Option<usize>
    ensures { MatchOption result (HasNo files.now file) (λ i. StandsAt files.now file i) }
{
    for (place, stored) in files.iter().enumerate() {
        if stored.is(file) {
            return Some(place);
        }
    }
    None
}

fn overwrite(all: &mut Vec<u8>, at: usize, bytes: &[u8]) -> Result<(), AllocError>
    ensures ok { OnOk result (all.new.items ≡ written all.old.items at bytes.now) }
    ensures err { OnErr result (all.new.items ≡ all.old.items) }
{
    let Some(end) = at.checked_add(bytes.len()) else {
        return Err(AllocError);
    };
    lengthen(all, end)?;
    all[at..end].copy_from_slice(bytes);
    Ok(())
}

fn lengthen(all: &mut Vec<u8>, count: usize) -> Result<(), AllocError>
    ensures ok { OnOk result (all.new.items ≡ all.old.items ++ replicate (count - length all.old.items) 0) }
    ensures err { OnErr result (all.new.items ≡ all.old.items) }
{
    if count > all.len() {
        all.resize(count, 0)?;
    }
    Ok(())
}
