// Reading fields from the front of some bytes.
ghost use Rattle.std.specs.Prelude.{◌≡◌};
ghost use Rattle.std.specs.Int.{w16, w32, w64};
ghost use Rattle.site_types.specs.Fields.{byte_field, number_field, bytes_field, IsTaken, borrowed};
ghost use Rattle.site_types.specs.declared.fields.FieldFault.TheVariants as fault;

use crate::NoMemory;
use std::alloc::AllocFailed;
use std::marker::Model;

/// The bytes end within a field.
#[derive(Clone, Copy, Debug)]
pub struct Ended;

/// Why a field wasn't read.
#[derive(Clone, Copy, Debug)]
pub enum FieldFault {
    /// It breaks its rule. So many bytes are left from where it begins, and none where the bytes end within it.
    Broken(usize),
    NoMemory,
}

impl From<NoMemory> for FieldFault {
    ghost from_gives = { λ _ e. e ≡ fault.NoMemory };

    fn from(_: NoMemory) -> FieldFault {
        FieldFault::NoMemory
    }
}

impl<T: Drop> From<AllocFailed<T>> for FieldFault {
    ghost from_gives = { λ _ e. e ≡ fault.NoMemory };

    fn from(_: AllocFailed<T>) -> FieldFault {
        FieldFault::NoMemory
    }
}

impl From<Ended> for FieldFault {
    ghost from_gives = { λ _ e. e ≡ fault.Broken 0 };

    fn from(_: Ended) -> FieldFault {
        FieldFault::Broken(0)
    }
}

/// Bytes of which some are still to be read, field by field. Numbers are big-endian.
#[derive(Drop)]
pub struct Fields<'a> {
    rest: &'a [u8],
}

impl<'a> Model for Fields<'a> {
    ghost use Rattle.std.specs.Prelude.{List, ℕ};

    ghost Value = { List ℕ };

    ghost view = { λ f. f.rest.now };
}

impl<'a> Fields<'a> {
    pub fn new(bytes: &'a [u8]) -> Fields<'a>
        ensures { result ≡ bytes.now }
    {
        Fields { rest: bytes }
    }

    /// The bytes that are still to be read.
    pub fn rest(&self) -> &'a [u8]
        ensures { result.now ≡ self.now }
    {
        self.rest
    }

    pub fn byte(&mut self) -> Result<u8, Ended>
        ensures { IsTaken result (byte_field self.old) self.new }
    {
        let [byte, rest @ ..] = self.rest else {
            return Err(Ended);
        };
        self.rest = rest;
        Ok(*byte)
    }

    /// A number of two bytes.
    pub fn short(&mut self) -> Result<u16, Ended>
        ensures { IsTaken result (number_field w16 self.old) self.new }
    {
        let [a, b, rest @ ..] = self.rest else {
            return Err(Ended);
        };
        self.rest = rest;
        Ok(u16::from_be_bytes([*a, *b]))
    }

    /// A number of four bytes.
    pub fn count(&mut self) -> Result<u32, Ended>
        ensures { IsTaken result (number_field w32 self.old) self.new }
    {
        let [a, b, c, d, rest @ ..] = self.rest else {
            return Err(Ended);
        };
        self.rest = rest;
        Ok(u32::from_be_bytes([*a, *b, *c, *d]))
    }

    /// A number of eight bytes.
    pub fn long(&mut self) -> Result<u64, Ended>
        ensures { IsTaken result (number_field w64 self.old) self.new }
    {
        let [a, b, c, d, e, f, g, h, rest @ ..] = self.rest else {
            return Err(Ended);
        };
        self.rest = rest;
        Ok(u64::from_be_bytes([*a, *b, *c, *d, *e, *f, *g, *h]))
    }

    /// So many bytes.
    pub fn bytes(&mut self, count: u64) -> Result<&'a [u8], Ended>
        ensures { IsTaken (borrowed result) (bytes_field count self.old) self.new }
    {
        if count > self.rest.len() as u64 {
            return Err(Ended);
        }
        let (bytes, rest) = self.rest.split_at(count as usize);
        self.rest = rest;
        Ok(bytes)
    }
}
