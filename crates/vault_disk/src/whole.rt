// Reads that go on until there is no room, or nothing more.
ghost use Rattle.std.specs.Prelude.{◌≡◌, ◌≤◌, length, IfOk, IsErrOf};
ghost use Rattle.vault_disk.specs.declared.whole.ReadFault.TheVariants.{NoMemory, Failed};
ghost use Rattle.vault_disk.specs.Disk.{IsSame};
ghost use Rattle.vault_disk.specs.Steps.{HasCause, LookedAround, ReadsFully, Rose};

use crate::{NoMemory, Vault};
use std::alloc::Global;

/// Why a whole file wasn't read.
#[derive(Clone, Copy, Debug, PartialEq, Eq)]
pub enum ReadFault {
    /// There was no memory for its bytes.
    NoMemory,
    /// A call of the vault failed.
    Failed,
}

impl From<NoMemory> for ReadFault {
    ghost from_gives = { λ _ e. e ≡ NoMemory };

    fn from(_: NoMemory) -> Self {
        ReadFault::NoMemory
    }
}

impl From<crate::Failed> for ReadFault {
    ghost from_gives = { λ _ e. e ≡ Failed };

    fn from(_: crate::Failed) -> Self {
        ReadFault::Failed
    }
}

/// Reads a file from offset `at` on, until the slice is full or the file ends, and says how many bytes it read.
pub fn read_fully<V: Vault>(
    vault: &mut V,
    file: u32,
    at: u64,
    into: &mut [u8],
) -> Result<usize, crate::Failed>
    ensures bound { IfOk result (λ n. n ≤ length into.new) }
    ensures bytes { (V.disk vault.old).tells → IfOk result (λ n. ReadsFully ((V.disk vault.old).seen file) at n into.new) }
    ensures looked { (V.disk vault.old).tells → LookedAround (V.disk vault.old) (V.disk vault.new) }
    ensures same { IsSame (V.disk vault.old) (V.disk vault.new) }
    ensures cause { HasCause (V.disk vault.old).faults (V.disk vault.new).faults result }
{
    let mut filled = 0;
    while filled < into.len() {
        let count = vault.read(file, at + filled as u64, &mut into[filled..])?;
        if count == 0 {
            return Ok(filled);
        }
        filled += count;
    }
    Ok(filled)
}

/// The bytes of a whole file.
pub fn read_whole<V: Vault>(alloc: Global, vault: &mut V, file: u32) -> Result<Vec<u8>, ReadFault>
    ensures bytes { (V.disk vault.old).tells → IfOk result (λ v. v.items ≡ (V.disk vault.old).seen file) }
    ensures looked { (V.disk vault.old).tells → LookedAround (V.disk vault.old) (V.disk vault.new) }
    ensures same { IsSame (V.disk vault.old) (V.disk vault.new) }
    ensures failed { IsErrOf result ReadFault.Failed → Rose (V.disk vault.old).faults (V.disk vault.new).faults }
{
    let length = vault.length(file)?;
    let mut bytes = zeros(alloc, length as usize)?;
    let count = read_fully(vault, file, 0, &mut bytes)?;
    bytes.truncate(count);
    Ok(bytes)
}

/// So many zeros.
pub fn zeros(alloc: Global, count: usize) -> Result<Vec<u8>, NoMemory>
    ensures { IfOk result (λ v. length v.items ≡ count) }
{
    vec![in alloc; 0u8; count]
}
