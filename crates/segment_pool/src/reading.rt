// Reading pieces from their slots.
ghost use Rattle.std.specs.Prelude.{◌≡◌, ◌≢◌, ◌⊎◌, ◌*◌, ◌<◌, ◌≤◌, ◌^◌, length, take, drop, IfOk, MatchResult};
ghost use Rattle.vault_disk.specs.Disk.{IsSame};
ghost use Rattle.vault_disk.specs.Steps.{HasCause, LookedAround};
ghost use Rattle.segment_pool.specs.Placing.{DiffersFrom};

use crate::fault::ReadTrouble;
use crate::fingerprint::Fingerprint;
use vault_disk::{Failed, Vault, read_fully};

// Where a slot begins in its file.
pub(crate) fn start_of(slot: u32, size: u32) -> u64
    ensures { result ≡ slot * size }
{
    slot as u64 * size as u64
}

// Reads from a slot's place on until the slice is full or the file ends, and says how many bytes it read.
pub(crate) fn read_slot<V: Vault>(
    vault: &mut V,
    file: u32,
    at: u64,
    into: &mut [u8],
) -> Result<usize, Failed>
    ensures bound { IfOk result (λ n. n ≤ length into.new) }
    ensures bytes { (V.disk vault.old).tells → IfOk result (λ n. take n into.new ≡ take (length into.new) (drop at ((V.disk vault.old).seen file))) }
    ensures looked { (V.disk vault.old).tells → LookedAround (V.disk vault.old) (V.disk vault.new) }
    ensures same { IsSame (V.disk vault.old) (V.disk vault.new) }
    ensures cause { HasCause (V.disk vault.old).faults (V.disk vault.new).faults result }
{
    read_fully(vault, file, at, into)
}

// Reads so many bytes into the front of a buffer, as far as the file has them.
pub(crate) fn read_front<V: Vault>(
    vault: &mut V,
    file: u32,
    at: u64,
    buffer: &mut [u8],
    expected: usize,
) -> Result<usize, Failed>
    requires { expected ≤ length buffer.old }
    ensures bound { IfOk result (λ n. n ≤ expected) }
    ensures bytes { (V.disk vault.old).tells → IfOk result (λ n. take n buffer.new ≡ take expected (drop at ((V.disk vault.old).seen file))) }
    ensures looked { (V.disk vault.old).tells → LookedAround (V.disk vault.old) (V.disk vault.new) }
    ensures same { IsSame (V.disk vault.old) (V.disk vault.new) }
    ensures cause { HasCause (V.disk vault.old).faults (V.disk vault.new).faults result }
{
    read_slot(vault, file, at, &mut buffer[..expected])
}

// Whether bytes that were read are as many as recorded and have the recorded digest.
pub(crate) fn check<F: Fingerprint>(
    print: &F,
    bytes: &[u8],
    expected: usize,
    recorded: &[u8; 32],
) -> Result<(), ReadTrouble>
    requires { length bytes.now ≤ expected }
    ensures { MatchResult result (λ _. (length bytes.now ≡ expected) × (F.digest_of bytes.now ≡ recorded.now)) (DiffersFrom F.digest_of bytes.now expected recorded.now) }
{
    let found = print.print(bytes);
    if bytes.len() < expected || found != *recorded {
        return Err(ReadTrouble::Damaged {
            recorded: *recorded,
            found,
        });
    }
    Ok(())
}
