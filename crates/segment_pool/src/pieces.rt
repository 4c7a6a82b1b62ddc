ghost use Rattle.std.specs.Prelude.{◌≡◌, ◌≤◌, length, slice_get, Some, MatchOption};
ghost use Rattle.segment_pool.specs.Pieces.{pieces};

use crate::fingerprint::Fingerprint;
use std::marker::{Model, PhantomData};

/// Bytes that were cut into pieces, with the digest of each piece. The bytes are borrowed: none is copied.
#[derive(Drop)]
pub struct Cut<'a, F: Fingerprint> {
    pub(crate) bytes: &'a [u8],
    pub(crate) size: u32,
    pub(crate) digests: Vec<[u8; 32]>,
    pub(crate) print: PhantomData<F>,
}

impl<'a, F: Fingerprint> Model for Cut<'a, F> {
    ghost use Rattle.std.specs.Prelude.{◌≡◌, ◌≤◌, map};
    ghost use Rattle.segment_pool.specs.Pieces.{CutBytes, pieces};

    ghost Value = { CutBytes };

    ghost view = { λ c. record { bytes = c.bytes.now; size = c.size } };

    ghost invariant = { λ c. (1 ≤ c.size) × (c.digests.items ≡ map F.digest_of (pieces c.size c.bytes.now)) };
}

impl<'a, F: Fingerprint> Cut<'a, F> {
    /// The bytes that were cut.
    pub fn bytes(&self) -> &[u8]
        ensures { result.now ≡ self.now.bytes }
    {
        self.bytes
    }

    /// The length of each piece but the last, in bytes.
    pub fn size(&self) -> u32
        ensures is { result ≡ self.now.size }
        ensures some { 1 ≤ result }
    {
        self.size
    }

    /// A piece with its digest, and None exactly past the last piece.
    pub fn piece(&self, index: u64) -> Option<(&[u8], [u8; 32])>
        ensures { MatchOption result (length (pieces self.now.size self.now.bytes) ≤ index)
            (λ p. (slice_get (pieces self.now.size self.now.bytes) index ≡ Some p.0.now) × (p.1 ≡ F.digest_of p.0.now)) }
    {
        if index >= self.digests.len() as u64 {
            return None;
        }
        let start = index as usize * self.size as usize;
        let end = self.bytes.len().min(start + self.size as usize);
        Some((&self.bytes[start..end], self.digests[index as usize]))
    }
}
