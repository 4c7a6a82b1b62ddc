ghost use Rattle.std.specs.Prelude.{◌≡◌};
ghost use Rattle.pool_journal.specs.Faults.{fault_of_read};
ghost use Rattle.pool_journal.specs.declared.fault.JournalFault.TheVariants.{NoMemory, DiskFault};

use site_types::NoMemory;
use std::alloc::AllocFailed;
use vault_disk::{Failed, ReadFault};

/// Why a call of the journal failed.
#[derive(Clone, Copy, Debug)]
pub enum JournalFault {
    NoMemory,
    /// A call of the vault failed.
    DiskFault,
    /// The vault is no desk's. For the opening of a journal this is the first offset at which its file differs from the header,
    /// and for that of a desk also the offset of the first record that is broken or doesn't fit.
    NotAVault { offset: u64 },
}

impl From<NoMemory> for JournalFault {
    ghost from_gives = { λ _ e. e ≡ NoMemory };

    fn from(_: NoMemory) -> Self {
        JournalFault::NoMemory
    }
}

impl<T: Drop> From<AllocFailed<T>> for JournalFault {
    ghost from_gives = { λ _ e. e ≡ NoMemory };

    fn from(_: AllocFailed<T>) -> Self {
        JournalFault::NoMemory
    }
}

impl From<Failed> for JournalFault {
    ghost from_gives = { λ _ e. e ≡ DiskFault };

    fn from(_: Failed) -> Self {
        JournalFault::DiskFault
    }
}

impl From<ReadFault> for JournalFault {
    ghost from_gives = { λ r e. e ≡ fault_of_read r };

    fn from(fault: ReadFault) -> Self {
        match fault {
            ReadFault::NoMemory => JournalFault::NoMemory,
            ReadFault::Failed => JournalFault::DiskFault,
        }
    }
}
