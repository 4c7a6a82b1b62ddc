// Where an offset stands in a copy's pieces.
ghost use Rattle.std.specs.Prelude.{◌≡◌, ◌+◌, ◌≤◌, length, take, drop, Some, IfOk, IfErr, OnOk};
ghost use Rattle.vault_disk.specs.Disk.{IsSame};
ghost use Rattle.vault_disk.specs.Steps.{LookedAround};
ghost use Rattle.segment_pool.specs.Faults.{TroubleHolds, TroubleOf};
ghost use Rattle.segment_pool.specs.Placing.{IsWhole, bytes_in};
ghost use Rattle.segment_pool.specs.Slots.{held};
ghost use Rattle.segment_pool.specs.declared.slot.Slot.{Slot as Known};

use segment_pool::{Fingerprint, Pool, ReadTrouble};
use vault_disk::Vault;

// A slot with the length of its piece, and how far into the piece an offset stands.
#[derive(Clone, Copy, Debug)]
pub(crate) struct Place {
    pub(crate) slot: u32,
    pub(crate) from: u32,
    pub(crate) length: u32,
}

impl Place {
    // Fills the slice from there on, which no part of the piece but what follows may be, and says how many bytes that is. A whole
    // piece is read into the slice itself, and of a part the pool has the rest.
    pub(crate) fn read<V: Vault, F: Fingerprint>(
        self,
        pool: &mut Pool<F>,
        vault: &mut V,
        into: &mut [u8],
    ) -> Result<usize, ReadTrouble>
        requires { (what : Known) × (held pool.old self.slot ≡ Some what) × (what.length ≡ self.length) × (self.from + length into.old ≤ self.length) }
        ensures pool { pool.new ≡ pool.old }
        ensures count { IfOk result (λ n. n ≡ length into.old) }
        ensures bytes { (V.disk vault.old).tells → OnOk result (into.new ≡ take (length into.old) (drop self.from (bytes_in pool.old (V.disk vault.old).seen self.slot self.length))) }
        ensures whole { (V.disk vault.old).tells → (what : Known) → held pool.old self.slot ≡ Some what → OnOk result (IsWhole F.digest_of what (bytes_in pool.old (V.disk vault.old).seen self.slot self.length)) }
        ensures told { (V.disk vault.old).tells → IfErr result (TroubleHolds F.digest_of pool.old (V.disk vault.old).seen self.slot) }
        ensures cause { (what : Known) → held pool.old self.slot ≡ Some what → IfErr result (TroubleOf what.digest (V.disk vault.old).faults (V.disk vault.new).faults) }
        ensures looked { (V.disk vault.old).tells → LookedAround (V.disk vault.old) (V.disk vault.new) }
        ensures same { IsSame (V.disk vault.old) (V.disk vault.new) }
    {
        if into.len() == self.length as usize {
            pool.read_into(vault, self.slot, into)?;
        } else {
            pool.read_part(vault, self.slot, self.from, into)?;
        }
        Ok(into.len())
    }
}
