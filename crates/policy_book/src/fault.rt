ghost use Rattle.std.specs.Prelude.{◌≡◌};
ghost use Rattle.policy_book.specs.declared.fault.BookFault.TheVariants as fault;
ghost use Rattle.policy_book.specs.declared.fault.LoadFault.TheVariants as load;

use crate::NoMemory;
use site_types::Text;
use std::alloc::AllocFailed;

/// Why a book wasn't changed.
#[derive(Debug, Drop)]
pub enum BookFault {
    /// Something of this name is there.
    Exists(Text),
    /// Nothing of this name is there.
    Unknown(Text),
    /// It is named by this user.
    InUse { name: Text, user: Text },
    /// So many of this kind are there, and that is the limit.
    TooMany { kind: Text, count: u64, limit: u64 },
    /// The rule with this number is broken.
    Rule(u8),
    /// No memory was left. It may be answered in place of anything else.
    NoMemory,
}

impl From<NoMemory> for BookFault {
    ghost from_gives = { λ _ e. e ≡ fault.NoMemory };

    fn from(_: NoMemory) -> BookFault {
        BookFault::NoMemory
    }
}

impl<T: Drop> From<AllocFailed<T>> for BookFault {
    ghost from_gives = { λ _ e. e ≡ fault.NoMemory };

    fn from(_: AllocFailed<T>) -> BookFault {
        BookFault::NoMemory
    }
}

/// Why the requests of a site file aren't there.
#[derive(Clone, Copy, Debug, PartialEq, Eq)]
pub enum LoadFault {
    /// It is no site file: no TOML in UTF-8, or a key or a value is none of a site.
    NotASite,
    /// No memory was left. It may be answered in place of anything else.
    NoMemory,
}

impl From<NoMemory> for LoadFault {
    ghost from_gives = { λ _ e. e ≡ load.NoMemory };

    fn from(_: NoMemory) -> LoadFault {
        LoadFault::NoMemory
    }
}

impl<T: Drop> From<AllocFailed<T>> for LoadFault {
    ghost from_gives = { λ _ e. e ≡ load.NoMemory };

    fn from(_: AllocFailed<T>) -> LoadFault {
        LoadFault::NoMemory
    }
}
