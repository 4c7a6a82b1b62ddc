ghost use Rattle.std.specs.Prelude.{◌≡◌};

use sha2::{Digest, Sha256};

/// A digest of byte strings. Two byte strings may have one digest.
pub trait Fingerprint: Drop {
    ghost use Rattle.std.specs.Prelude.{◌≡◌, ℕ, List};

    /// The digest of each byte string.
    ghost digest_of: { List ℕ → List ℕ };

    /// The digest of these bytes.
    fn print(&self, bytes: &[u8]) -> [u8; 32]
        ensures { result ≡ digest_of bytes.now };
}

/// SHA-256 (FIPS 180-4).
#[derive(Clone, Copy, Debug)]
pub struct Sha256Print;

impl Fingerprint for Sha256Print {
    ghost use Rattle.sha2.specs.Sha256.{sha256};

    ghost digest_of = { sha256 };

    fn print(&self, bytes: &[u8]) -> [u8; 32] {
        Sha256::digest(bytes)
    }
}
