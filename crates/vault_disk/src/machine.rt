ghost use Rattle.std.specs.Prelude.{◌≡◌};
ghost use Rattle.vault_disk.specs.Disk.{IsSame};
ghost use Rattle.vault_disk.specs.Steps.{HasCause, Sends, IsSameBut};

use crate::{Failed, Vault};

/// A vault, and a place to send bytes to. Sends have a count of faults of their own.
pub trait Machine: Vault {
    /// Sends these bytes behind those sent before. A send that fails has sent a prefix of its bytes. It changes nothing of the vault.
    fn send(&mut self, bytes: &[u8]) -> Result<(), Failed>
        ensures sends { (Self.disk self.old).tells → Sends bytes.now (Self.disk self.old) (Self.disk self.new) result }
        ensures same { IsSameBut (Self.disk self.old) (Self.disk self.new) }
        ensures cause { HasCause (Self.disk self.old).send_faults (Self.disk self.new).send_faults result };
}
