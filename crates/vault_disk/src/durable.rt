// A write that is on the disk when it returns.
ghost use Rattle.std.specs.Prelude.{◌≡◌};
ghost use Rattle.vault_disk.specs.Disk.{IsSame};
ghost use Rattle.vault_disk.specs.Steps.{HasCause, WroteDurably, CutDurably};

use crate::{Failed, Vault};

/// Writes these bytes at offset `at`, and syncs the file.
pub fn write_durably<V: Vault>(
    vault: &mut V,
    file: u32,
    at: u64,
    bytes: &[u8],
) -> Result<(), Failed>
    ensures wrote { (V.disk vault.old).tells → WroteDurably file at bytes.now (V.disk vault.old) (V.disk vault.new) result }
    ensures same { IsSame (V.disk vault.old) (V.disk vault.new) }
    ensures cause { HasCause (V.disk vault.old).faults (V.disk vault.new).faults result }
{
    vault.write_at(file, at, bytes)?;
    vault.sync(file)
}

/// Sets the length of a file, and syncs it.
pub fn cut_durably<V: Vault>(vault: &mut V, file: u32, length: u64) -> Result<(), Failed>
    ensures cut { (V.disk vault.old).tells → CutDurably file length (V.disk vault.old) (V.disk vault.new) result }
    ensures same { IsSame (V.disk vault.old) (V.disk vault.new) }
    ensures cause { HasCause (V.disk vault.old).faults (V.disk vault.new).faults result }
{
    vault.cut(file, length)?;
    vault.sync(file)
}
