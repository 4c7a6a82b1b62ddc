// Opening a vault.
ghost use Rattle.std.specs.Prelude.{◌≡◌, false, Ok, Some, IfOk, IfErr, MatchResult};
ghost use Rattle.vault_disk.specs.Disk.{IsSame};
ghost use Rattle.vault_disk.specs.Steps.{Rose};
ghost use Rattle.desk_model.specs.State.{State};
ghost use Rattle.desk_model.specs.Sound.{Sound, KeepsCopies};
ghost use Rattle.vault_ledger.specs.Ledger.{stands};
ghost use Rattle.desk_steps.specs.Openings.{KeepsJournal};
ghost use Rattle.site_desk.specs.Stands.{opened, Standing, Opens};
ghost use Rattle.site_desk.specs.Desk.{IsFaultOf};

use crate::desk::Desk;
use desk_steps::open;
use pool_journal::JournalFault;
use std::alloc::Global;
use vault_disk::Vault;

impl<V: Vault> Desk<V> {
    /// Opens a vault that a stop may have left. Where that is refused the vault is handed back.
    ///
    /// NotAVault comes exactly where the vault's journal makes no state, with the offset of the first of its records that is
    /// broken or doesn't fit, or at which its header is wrong.
    pub fn open_vault(alloc: Global, mut vault: V) -> Result<Desk<V>, (V, JournalFault)>
        ensures running { IfOk result (λ d. d.stopped ≡ false) }
        ensures state { (V.disk vault).tells → IfOk result (λ d. opened (V.disk vault).seen ≡ Ok d.state) }
        ensures standing { (s : State) → (V.disk vault).tells → stands (V.disk vault).seen ≡ Some s → IfOk result (λ d. (d.state ≡ s) × Standing (V.disk d.vault) d.state) }
        // What the vault stands for is sound, and each copy that it keeps restores the bytes of its image.
        ensures sound { (s : State) → (V.disk vault).tells → stands (V.disk vault).seen ≡ Some s → IfOk result (λ d. Sound d.state × KeepsCopies d.state) }
        ensures same { MatchResult result (λ d. IsSame (V.disk vault) (V.disk d.vault)) (λ e. IsSame (V.disk vault) (V.disk e.0)) }
        ensures stops { (V.disk vault).tells → MatchResult result (λ d. Opens (V.disk vault) (V.disk d.vault)) (λ e. Opens (V.disk vault) (V.disk e.0)) }
        // Whether or not the journal is a vault's, a stop leaves one that reads the same.
        ensures journal { (V.disk vault).tells → MatchResult result (λ d. KeepsJournal (V.disk vault) (V.disk d.vault)) (λ e. KeepsJournal (V.disk vault) (V.disk e.0)) }
        ensures not_a_vault { (V.disk vault).tells → IfErr result (λ e. IsFaultOf (opened (V.disk vault).seen) e.1) }
        ensures failed { IfErr result (λ e. e.1 ≡ JournalFault.DiskFault → Rose (V.disk vault).faults (V.disk e.0).faults) }
    {
        match open(alloc, &mut vault) {
            Ok(opened) => Ok(Desk {
                vault,
                journal: opened.journal,
                index: opened.index,
                stopped: false,
            }),
            Err(fault) => Err((vault, fault)),
        }
    }
}
