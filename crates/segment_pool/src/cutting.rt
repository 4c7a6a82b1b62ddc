ghost use Rattle.std.specs.Prelude.{◌≡◌, ◌≤◌, IfOk};

use crate::NoMemory;
use crate::fingerprint::Fingerprint;
use crate::pieces::Cut;
use std::alloc::Global;
use std::marker::PhantomData;

/// Cuts bytes into pieces of this size, the last of which may be shorter, and takes the digest of each.
pub fn cut<'a, F: Fingerprint>(
    alloc: Global,
    print: &F,
    bytes: &'a [u8],
    size: u32,
) -> Result<Cut<'a, F>, NoMemory>
    requires { 1 ≤ size }
    ensures { IfOk result (λ c. c ≡ record { bytes = bytes.now; size = size }) }
{
    let mut digests = Vec::with_capacity(alloc, bytes.len().div_ceil(size as usize))?;
    let mut rest = bytes;
    while !rest.is_empty() {
        let length = rest.len().min(size as usize);
        digests.push(print.print(&rest[..length]))?;
        rest = &rest[length..];
    }
    Ok(Cut {
        bytes,
        size,
        digests,
        print: PhantomData,
    })
}
