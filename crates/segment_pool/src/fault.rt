ghost use Rattle.std.specs.Prelude.{◌≡◌};
ghost use Rattle.segment_pool.specs.Faults.{fault_of_trouble};
ghost use Rattle.segment_pool.specs.declared.fault.PoolFault.TheVariants as fault;
ghost use Rattle.segment_pool.specs.declared.fault.ReadTrouble.TheVariants as trouble;

use crate::NoMemory;
use vault_disk::Failed;

/// Why a piece wasn't read.
#[derive(Clone, Copy, Debug)]
pub enum ReadTrouble {
    /// A call of the vault failed.
    DiskFault,
    /// The bytes that were read are fewer than recorded or have another digest than recorded. The digests are the recorded one
    /// and theirs.
    Damaged { recorded: [u8; 32], found: [u8; 32] },
}

/// Why a piece wasn't placed.
#[derive(Clone, Copy, Debug)]
pub enum PoolFault {
    NoMemory,
    /// A call of the vault failed.
    DiskFault,
    /// A slot with the piece's digest has fewer bytes than recorded or bytes of another digest. The digests are the recorded one
    /// and theirs.
    Damaged { recorded: [u8; 32], found: [u8; 32] },
    /// The piece isn't held, and at least as many are held as the pool has slots: one less than the count.
    Full { count: u32 },
}

impl From<Failed> for ReadTrouble {
    ghost from_gives = { λ _ e. e ≡ trouble.DiskFault };

    fn from(_: Failed) -> Self {
        ReadTrouble::DiskFault
    }
}

impl From<NoMemory> for PoolFault {
    ghost from_gives = { λ _ e. e ≡ fault.NoMemory };

    fn from(_: NoMemory) -> Self {
        PoolFault::NoMemory
    }
}

impl From<Failed> for PoolFault {
    ghost from_gives = { λ _ e. e ≡ fault.DiskFault };

    fn from(_: Failed) -> Self {
        PoolFault::DiskFault
    }
}

impl From<ReadTrouble> for PoolFault {
    ghost from_gives = { λ t e. e ≡ fault_of_trouble t };

    fn from(trouble: ReadTrouble) -> Self {
        match trouble {
            ReadTrouble::DiskFault => PoolFault::DiskFault,
            ReadTrouble::Damaged { recorded, found } => PoolFault::Damaged { recorded, found },
        }
    }
}
