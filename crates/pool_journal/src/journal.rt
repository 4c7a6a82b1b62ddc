// Adding a record to a journal.
//
// A record is staged and then written. `stage` takes all of its memory and `write` none, and what the desk knows is changed before
// it is written, which may find no memory too: so nothing but the disk fails behind that. Where the record isn't known yet when
// memory is taken, as that of pieces whose slots the disk will show, a `Room` is taken, and `stage_in` takes none.
ghost use Rattle.std.specs.Prelude.{◌≡◌, ◌+◌, List, [], length, IfOk, OnOk, OnErr, IfErr, IsErrOf};
ghost use Rattle.vault_disk.specs.Disk.{IsSame};
ghost use Rattle.vault_disk.specs.Steps.{Rose};
ghost use Rattle.pool_journal.specs.Entries.{spelled_entry, staged_record, Grows, IsWritable, IsStaged};
ghost use Rattle.pool_journal.specs.Rooms.{Fits};
ghost use Rattle.pool_journal.specs.Records.{Found};
ghost use Rattle.pool_journal.specs.Stops.{AtRest, Appended, Stops, IsOfAppend};

use crate::entry::Entry;
use crate::fault::JournalFault;
use crate::records::OPEN;
use crate::room::Room;
use crate::spelling::push_entry;
use site_types::NoMemory;
use std::alloc::Global;
use std::marker::Model;
use vault_disk::{Failed, Vault, write_durably};

/// An open journal: the offset of the closed gate behind its last record.
#[derive(Drop)]
pub struct Journal {
    end: u64,
}

impl Model for Journal {
    ghost use Rattle.std.specs.Prelude.{ℕ};

    ghost Value = { ℕ };

    ghost view = { λ j. j.end };
}

/// A record before it is written: what stands behind its gate, with the closed gate of the next.
#[derive(Drop)]
pub struct Staged {
    bytes: Vec<u8>,
}

impl Model for Staged {
    ghost use Rattle.std.specs.Prelude.{List, ℕ};

    ghost Value = { List ℕ };

    ghost view = { λ s. s.bytes.items };
}

// The number of bytes of a record behind its gate, with the closed gate of the next.
fn staged_size(entry: &Entry) -> u64
    requires { IsWritable entry.now }
    ensures { result ≡ length (staged_record (spelled_entry entry.now)) }
{
    entry.size() + 5
}

impl Journal {
    /// The journal whose closed gate is at this offset.
    pub fn at(end: u64) -> Journal
        ensures { result ≡ end }
    {
        Journal { end }
    }

    /// The offset of the closed gate. After an append the bytes of its record end here.
    pub fn end(&self) -> u64
        ensures { result ≡ self.now }
    {
        self.end
    }

    /// Takes all memory of an entry's record. It isn't written yet.
    pub fn stage(alloc: Global, entry: &Entry) -> Result<Staged, NoMemory>
        requires { IsWritable entry.now }
        ensures { IfOk result (IsStaged entry.now) }
    {
        let room = Room::reserve(alloc, staged_size(entry))?;
        Ok(Journal::stage_in(room, entry))
    }

    /// Puts a record together in memory that was taken for it. It isn't written yet.
    pub fn stage_in(room: Room, entry: &Entry) -> Staged
        requires writable { IsWritable entry.now }
        requires room { Fits room (staged_record (spelled_entry entry.now)) }
        requires empty { room.bytes ≡ [] }
        ensures { IsStaged entry.now result }
    {
        let mut record = room;
        record.push(&(entry.size() as u32).to_be_bytes());
        push_entry(&mut record, entry);
        record.push(&[0]);
        Staged {
            bytes: record.into_bytes(),
        }
    }

    /// Adds a record that was staged. It is on the disk when this returns. After a disk fault the journal is opened again.
    ///
    /// For a backup or a copy, no more of whose segments are new than it has pieces, the end moves by at most 512 bytes and 44 for
    /// each piece, and the file grows by no more.
    pub fn write<V: Vault>(&mut self, vault: &mut V, staged: &Staged) -> Result<(), Failed>
        ensures appended { (e : Entry) → IsStaged e staged.now → (fs : List Found) → (V.disk vault.old).tells → AtRest (V.disk vault.old) self.old fs → OnOk result (Appended fs self.old e (V.disk vault.old) (V.disk vault.new) self.new) }
        ensures stops { (e : Entry) → IsStaged e staged.now → (fs : List Found) → (V.disk vault.old).tells → AtRest (V.disk vault.old) self.old fs → Stops fs self.old e (V.disk vault.old) (V.disk vault.new) }
        ensures placed { (e : Entry) → IsStaged e staged.now → (V.disk vault.old).tells → OnOk result (self.new ≡ self.old + 5 + length (spelled_entry e)) }
        ensures moves { (e : Entry) → IsStaged e staged.now → Grows e self.old self.new }
        ensures grows { (e : Entry) → IsStaged e staged.now → (fs : List Found) → (V.disk vault.old).tells → AtRest (V.disk vault.old) self.old fs → OnOk result (Grows e (length ((V.disk vault.old).seen 0)) (length ((V.disk vault.new).seen 0))) }
        ensures same { IsSame (V.disk vault.old) (V.disk vault.new) }
        ensures failed { OnErr result (Rose (V.disk vault.old).faults (V.disk vault.new).faults) }
    {
        write_durably(vault, 0, self.end.saturating_add(1), &staged.bytes)?;
        write_durably(vault, 0, self.end, &[OPEN])?;
        self.end = self.end.saturating_add(staged.bytes.len() as u64);
        Ok(())
    }

    /// Adds the record of an entry. It is on the disk when this returns. After a disk fault the journal is opened again.
    pub fn append<V: Vault>(
        &mut self,
        alloc: Global,
        vault: &mut V,
        entry: &Entry,
    ) -> Result<(), JournalFault>
        requires { IsWritable entry.now }
        ensures appended { (fs : List Found) → (V.disk vault.old).tells → AtRest (V.disk vault.old) self.old fs → OnOk result (Appended fs self.old entry.now (V.disk vault.old) (V.disk vault.new) self.new) }
        ensures stops { (fs : List Found) → (V.disk vault.old).tells → AtRest (V.disk vault.old) self.old fs → Stops fs self.old entry.now (V.disk vault.old) (V.disk vault.new) }
        ensures placed { (V.disk vault.old).tells → OnOk result (self.new ≡ self.old + 5 + length (spelled_entry entry.now)) }
        ensures same { IsSame (V.disk vault.old) (V.disk vault.new) }
        ensures failed { IsErrOf result JournalFault.DiskFault → Rose (V.disk vault.old).faults (V.disk vault.new).faults }
        ensures memory { IsErrOf result JournalFault.NoMemory → (self.new ≡ self.old) × (vault.new ≡ vault.old) }
        ensures never { IfErr result IsOfAppend }
    {
        let staged = Journal::stage(alloc, entry)?;
        self.write(vault, &staged)?;
        Ok(())
    }
}
