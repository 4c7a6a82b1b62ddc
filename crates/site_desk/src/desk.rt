ghost use Rattle.std.specs.Prelude.{◌≡◌};

use desk_index::Index;
use pool_journal::Journal;
use std::marker::Model;
use vault_disk::Vault;

/// The desk over a vault.
#[derive(Drop)]
pub struct Desk<V: Vault> {
    pub(crate) vault: V,
    pub(crate) journal: Journal,
    pub(crate) index: Index,
    pub(crate) stopped: bool,
}

impl<V: Vault> Model for Desk<V> {
    ghost use Rattle.std.specs.Prelude.{◌≡◌, false};
    ghost use Rattle.site_desk.specs.Desk.{DeskValue, desk_state, Known};

    ghost Value = { DeskValue V };

    ghost view = { λ d. record { state = desk_state (V.disk d.vault); site = d.index.site; catalogue = d.index.catalogue; stopped = d.stopped; vault = d.vault } };

    ghost invariant = { λ d. d.stopped ≡ false → Known (V.disk d.vault) d.journal d.index };
}

impl<V: Vault> Desk<V> {
    /// A fault of the disk has stopped the desk.
    pub fn is_stopped(&self) -> bool
        ensures { result ≡ self.now.stopped }
    {
        self.stopped
    }

    /// Hands the vault back.
    pub fn close(self) -> V
        ensures { result ≡ self.vault }
    {
        let Desk {
            vault,
            journal: _,
            index: _,
            stopped: _,
        } = self;
        vault
    }
}
