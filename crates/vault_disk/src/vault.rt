ghost use Rattle.std.specs.Prelude.{◌≡◌, ◌≤◌, length, drop, IfOk};
ghost use Rattle.vault_disk.specs.Steps.{HasCause, Wrote, WasCut, Synced, Looked, Reads};
ghost use Rattle.vault_disk.specs.Disk.{IsSame};

/// A call failed. The count of faults of the object that was called rose, or stands at the end of its type.
#[derive(Clone, Copy, Debug, PartialEq, Eq)]
pub struct Failed;

/// A few numbered files. A file that was never written has length 0, and none is longer than 9,223,372,036,854,775,807. Offsets and
/// lengths are in bytes.
///
/// Between two syncs of a file a stop may leave any bytes in the ranges that were written, and any length between the
/// old and the new. Files are independent of each other.
pub trait Vault {
    ghost use Rattle.std.specs.Prelude.{◌≡◌, ◌+◌, ◌^◌, ◌<◌, ◌≤◌, ℕ, List, length, drop, IfOk};
    ghost use Rattle.vault_disk.specs.Disk.{Disk, Image, IsSame};
    ghost use Rattle.vault_disk.specs.Steps.{HasCause, Wrote, WasCut, Synced, Looked, Reads};

    /// All that is known of the vault.
    ghost disk: { Self → Disk };

    /// Reads some bytes of a file, from offset `at` on, and says how many: none only at or past the file's end, or for
    /// an empty slice.
    fn read(&mut self, file: u32, at: u64, into: &mut [u8]) -> Result<usize, Failed>
        ensures bound { IfOk result (λ n. n ≤ length into.new) }
        ensures fits { IfOk result (λ n. at + n < 2 ^ 64) }
        ensures bytes { (disk self.old).tells → IfOk result (λ n. Reads ((disk self.old).seen file) at n into.new) }
        ensures looked { (disk self.old).tells → Looked (disk self.old) (disk self.new) }
        ensures same { IsSame (disk self.old) (disk self.new) }
        ensures cause { HasCause (disk self.old).faults (disk self.new).faults result };

    /// Writes over what is there from offset `at` on, and past the end. A gap is filled by zeros. A write past
    /// 9,223,372,036,854,775,807 fails.
    fn write_at(&mut self, file: u32, at: u64, bytes: &[u8]) -> Result<(), Failed>
        ensures wrote { (disk self.old).tells → Wrote file at bytes.now (disk self.old) (disk self.new) result }
        ensures same { IsSame (disk self.old) (disk self.new) }
        ensures cause { HasCause (disk self.old).faults (disk self.new).faults result };

    /// Sets the length of a file: what stands behind it is dropped, and a gap is filled by zeros. A length past
    /// 9,223,372,036,854,775,807 fails.
    fn cut(&mut self, file: u32, length: u64) -> Result<(), Failed>
        ensures was_cut { (disk self.old).tells → WasCut file length (disk self.old) (disk self.new) result }
        ensures same { IsSame (disk self.old) (disk self.new) }
        ensures cause { HasCause (disk self.old).faults (disk self.new).faults result };

    /// Makes a file durable: where it succeeds a stop leaves of this file what a read gives.
    fn sync(&mut self, file: u32) -> Result<(), Failed>
        ensures synced { (disk self.old).tells → Synced file (disk self.old) (disk self.new) result }
        ensures same { IsSame (disk self.old) (disk self.new) }
        ensures cause { HasCause (disk self.old).faults (disk self.new).faults result };

    /// The length of a file, which is at most 9,223,372,036,854,775,807.
    fn length(&mut self, file: u32) -> Result<u64, Failed>
        ensures length { (disk self.old).tells → IfOk result (λ n. n ≡ length ((disk self.old).seen file)) }
        ensures short { IfOk result (λ n. n < 2 ^ 63) }
        ensures looked { (disk self.old).tells → Looked (disk self.old) (disk self.new) }
        ensures same { IsSame (disk self.old) (disk self.new) }
        ensures cause { HasCause (disk self.old).faults (disk self.new).faults result };

    /// What reads give is one of the images that a stop may leave.
    ghost reads_count: { (v : Self) → (disk v).tells → (disk v).may_leave (disk v).seen };

    /// This moment is one of those since an earlier one.
    ghost counts_now: { (v : Self) (t : ℕ) (c : Image) → (disk v).tells → t ≤ (disk v).moment → (disk v).may_leave c → (disk v).left_since t c (disk v).sent };

    /// Since this moment there is no other.
    ghost only_now: { (v : Self) (c : Image) (b : List ℕ) → (disk v).tells → (disk v).left_since (disk v).moment c b → (disk v).may_leave c × (b ≡ (disk v).sent) };
}
