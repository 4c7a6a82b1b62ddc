ghost use Rattle.std.specs.Prelude.{◌≡◌};

use std::marker::Model;

/// Some bytes, where they lie. Contracts see them as a list.
#[derive(Debug, Drop)]
pub struct Bytes<'a> {
    bytes: &'a [u8],
}

impl<'a> Model for Bytes<'a> {
    ghost use Rattle.std.specs.Prelude.{List, ℕ};

    ghost Value = { List ℕ };

    ghost view = { λ b. b.bytes.now };
}

impl<'a> Bytes<'a> {
    pub fn new(bytes: &'a [u8]) -> Bytes<'a>
        ensures { result ≡ bytes.now }
    {
        Bytes { bytes }
    }

    pub fn bytes(&self) -> &'a [u8]
        ensures { result.now ≡ self.now }
    {
        self.bytes
    }

    /// The same bytes once more.
    pub fn again(&self) -> Bytes<'a>
        ensures { result ≡ self.now }
    {
        Bytes::new(self.bytes)
    }
}
