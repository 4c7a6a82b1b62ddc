// Reading all of a copy, to have its bytes or to see whether they are there.
ghost use Rattle.std.specs.Prelude.{◌≡◌, ℕ, List, length, IfOk, IfErr, OnOk, MatchResult};
ghost use Rattle.vault_disk.specs.Disk.{IsSame};
ghost use Rattle.vault_disk.specs.Steps.{LookedAround};
ghost use Rattle.segment_pool.specs.Faults.{TroubleHolds, TroubleOf};
ghost use Rattle.segment_pool.specs.Placing.{IsTruePool};
ghost use Rattle.copy_fragments.specs.Copies.{HoldsCopy, IsPart, IsPlaced, SomePiece};
ghost use Rattle.copy_fragments.specs.WholeCopies.{FirstTrouble, IsWholeCopy, OfTrouble, fault_of_trouble};
ghost use Rattle.copy_fragments.specs.declared.whole_copy.CopyFault.TheVariants as fault;

use crate::copy_map::CopyMap;
use segment_pool::{Fingerprint, NoMemory, Pool, ReadTrouble};
use std::alloc::Global;
use vault_disk::{Vault, zeros};

/// Why the bytes of a copy weren't read.
#[derive(Clone, Copy, Debug)]
pub enum CopyFault {
    /// There was no memory for its bytes.
    NoMemory,
    /// A call of the vault failed.
    DiskFault,
    /// The bytes of a piece are fewer than recorded or have another digest than recorded. The digests are the recorded one and
    /// theirs.
    Damaged { recorded: [u8; 32], found: [u8; 32] },
}

impl From<NoMemory> for CopyFault {
    ghost from_gives = { λ _ e. e ≡ fault.NoMemory };

    fn from(_: NoMemory) -> Self {
        CopyFault::NoMemory
    }
}

impl From<ReadTrouble> for CopyFault {
    ghost from_gives = { λ t e. e ≡ fault_of_trouble t };

    fn from(trouble: ReadTrouble) -> Self {
        match trouble {
            ReadTrouble::DiskFault => CopyFault::DiskFault,
            ReadTrouble::Damaged { recorded, found } => CopyFault::Damaged { recorded, found },
        }
    }
}

impl CopyMap {
    /// The copy's bytes, all of them.
    ///
    /// All memory is taken before the first call of the vault, and a copy that is longer than memory can be gets NoMemory. Damaged
    /// comes only where the bytes of a piece, up to the file's end, are fewer than recorded or have another digest.
    pub fn read_all<V: Vault, F: Fingerprint>(
        &self,
        alloc: Global,
        pool: &mut Pool<F>,
        vault: &mut V,
    ) -> Result<Vec<u8>, CopyFault>
        requires { HoldsCopy pool.old self.now }
        ensures pool { pool.new ≡ pool.old }
        ensures length { IfOk result (λ bytes. length bytes.items ≡ self.now.length) }
        ensures part { (V.disk vault.old).tells → IfOk result (λ bytes. IsPart F.digest_of pool.old (V.disk vault.old).seen self.now 0 bytes.items) }
        ensures placed { (V.disk vault.old).tells → (bytes : List ℕ) → IsPlaced F.digest_of pool.old (V.disk vault.old).seen self.now bytes → MatchResult result (λ read. read.items ≡ bytes) (OfTrouble (λ trouble. trouble ≡ ReadTrouble.DiskFault)) }
        ensures told { (V.disk vault.old).tells → IfErr result (OfTrouble (λ trouble. SomePiece pool.old self.now 0 self.now.length (λ slot _. TroubleHolds F.digest_of pool.old (V.disk vault.old).seen slot trouble))) }
        ensures undamaged { (V.disk vault.old).tells → IsTruePool F.digest_of pool.old (V.disk vault.old).seen → IfErr result (OfTrouble (λ trouble. trouble ≡ ReadTrouble.DiskFault)) }
        ensures cause { IfErr result (OfTrouble (λ trouble. SomePiece pool.old self.now 0 self.now.length (λ _ what. TroubleOf what.digest (V.disk vault.old).faults (V.disk vault.new).faults trouble))) }
        ensures memory { IfErr result (λ fault. fault ≡ CopyFault.NoMemory → vault.new ≡ vault.old) }
        ensures looked { (V.disk vault.old).tells → LookedAround (V.disk vault.old) (V.disk vault.new) }
        ensures same { IsSame (V.disk vault.old) (V.disk vault.new) }
    {
        let Ok(count) = usize::try_from(self.length()) else {
            return Err(CopyFault::NoMemory);
        };
        let mut bytes = zeros(alloc, count)?;
        self.read_at(pool, vault, 0, &mut bytes)?;
        Ok(bytes)
    }

    /// Reads each piece of the copy, and tells the first that is damaged. It takes no memory.
    ///
    /// Damaged comes only where the bytes of a piece, up to the file's end, are fewer than recorded or have another digest.
    pub fn verify<V: Vault, F: Fingerprint>(
        &self,
        pool: &mut Pool<F>,
        vault: &mut V,
    ) -> Result<(), ReadTrouble>
        requires { HoldsCopy pool.old self.now }
        ensures pool { pool.new ≡ pool.old }
        ensures whole { (V.disk vault.old).tells → OnOk result (IsWholeCopy F.digest_of pool.old (V.disk vault.old).seen self.now) }
        ensures told { (V.disk vault.old).tells → IfErr result (λ trouble. SomePiece pool.old self.now 0 self.now.length (λ slot _. TroubleHolds F.digest_of pool.old (V.disk vault.old).seen slot trouble)) }
        ensures first { (V.disk vault.old).tells → IfErr result (FirstTrouble F.digest_of pool.old (V.disk vault.old).seen self.now) }
        ensures undamaged { (V.disk vault.old).tells → IsTruePool F.digest_of pool.old (V.disk vault.old).seen → IfErr result (λ trouble. trouble ≡ ReadTrouble.DiskFault) }
        ensures cause { IfErr result (λ trouble. SomePiece pool.old self.now 0 self.now.length (λ _ what. TroubleOf what.digest (V.disk vault.old).faults (V.disk vault.new).faults trouble)) }
        ensures looked { (V.disk vault.old).tells → LookedAround (V.disk vault.old) (V.disk vault.new) }
        ensures same { IsSame (V.disk vault.old) (V.disk vault.new) }
    {
        for slot in self.slots() {
            pool.read_part(vault, *slot, 0, &mut [])?;
        }
        Ok(())
    }
}
