// Memory for a record.
ghost use Rattle.std.specs.Prelude.{◌≡◌, ◌≤◌, [], IfOk};
ghost use Rattle.pool_journal.specs.Rooms.{Fits, Gets, RoomState};

use site_types::NoMemory;
use std::alloc::Global;
use std::marker::Model;

/// Memory that was taken for a record, before the record is known. What is put into it takes none.
#[derive(Drop)]
pub struct Room {
    bytes: Vec<u8>,
}

impl Model for Room {
    ghost use Rattle.std.specs.Prelude.{vec_capacity};
    ghost use Rattle.pool_journal.specs.Rooms.{RoomState};

    ghost Value = { RoomState };

    ghost view = { λ r. record { bytes = r.bytes.items; size = vec_capacity r.bytes } };
}

impl Room {
    /// Room for so many bytes.
    pub fn reserve(alloc: Global, size: u64) -> Result<Room, NoMemory>
        ensures { IfOk result (λ room. (room.bytes ≡ []) × (size ≤ room.size)) }
    {
        Ok(Room {
            bytes: Vec::with_capacity(alloc, size as usize)?,
        })
    }

    pub(crate) fn push(&mut self, bytes: &[u8])
        requires { Fits self.old bytes.now }
        ensures { Gets bytes.now self.old self.new }
    {
        let Ok(()) = self.bytes.extend_from_slice(bytes) else {
            unreachable!()
        };
    }

    pub(crate) fn into_bytes(self) -> Vec<u8>
        ensures { result.items ≡ self.bytes }
    {
        self.bytes
    }
}
