ghost use Rattle.std.specs.Prelude.{◌≡◌, ◌≢◌, ◌≤◌, ℕ, true, false, List, Result, Ok, Contains};
ghost use Rattle.vault_disk.specs.Disk.{IsSame};
ghost use Rattle.vault_disk.specs.Steps.{HasCause, IsSameBut, Rose, Sends};
ghost use Rattle.site_types.specs.Classes.{class_of};
ghost use Rattle.site_types.specs.declared.id.BackupId.{BackupId as Id};
ghost use Rattle.site_types.specs.Limits.{last_moment};
ghost use Rattle.site_types.specs.Lines.{IsFormed};
ghost use Rattle.vault_ledger.specs.Ledger.{Ledger, journal_reads};
ghost use Rattle.desk_index.specs.Answers.{Answered, Moved, reached, IsOfRequest, IsRefusal};
ghost use Rattle.desk_steps.specs.Steps.{is_change, is_written};
ghost use Rattle.desk_steps.specs.Readings.{IsWholeImage};
ghost use Rattle.desk_steps.specs.Backups.{is_backup};
ghost use Rattle.desk_steps.specs.Asked.{IsOneDamaged, answer_given, images_read};
ghost use Rattle.site_desk.specs.Stands.{Standing, Between};

use crate::desk::Desk;
use desk_steps::carry_out;
use site_types::{Answer, Request};
use std::alloc::Global;
use vault_disk::{Failed, Machine, Vault};

impl<V: Vault> Desk<V> {
    /// Carries out a request with its payload at this moment, in seconds since 1970-01-01T00:00:00Z. After a disk fault the desk
    /// is stopped, and the request may have been carried out or not.
    pub fn step(&mut self, alloc: Global, request: &Request, payload: &[u8], moment: u64) -> Answer
        requires running { self.old.stopped ≡ false }
        requires formed { IsFormed request.now }
        requires moment { moment ≤ last_moment }
        ensures answers { (V.disk self.old.vault).tells → Standing (V.disk self.old.vault) self.old.state → Answered self.old.state request.now payload.now moment result }
        ensures kinds { IsOfRequest request.now payload.now result }
        ensures moves { (V.disk self.old.vault).tells → Standing (V.disk self.old.vault) self.old.state → Moved self.old.state request.now payload.now moment result self.new.state }
        // On any vault a refusal leaves what the desk knows as it was.
        ensures refused { IsRefusal result → (self.new.site ≡ self.old.site) × (self.new.catalogue ≡ self.old.catalogue) }
        // A change of the site is refused without a call of the vault.
        ensures untouched { is_change request.now ≡ true → IsRefusal result → self.new.vault ≡ self.old.vault }
        // All memory of a request that writes a record is taken before its first call of the vault.
        ensures memory { is_written request.now ≡ true → result ≡ Answer.OutOfMemory → self.new.vault ≡ self.old.vault }
        // What a restore gives back, and when it tells damage, over any vault that tells, whether or not it stands for a state.
        ensures whole { (l : Ledger) (given : Result (List ℕ) ℕ) (id : Id) → (V.disk self.old.vault).tells → journal_reads (V.disk self.old.vault).seen ≡ Ok l → result ≡ answer_given given → Contains (images_read (class_of request.now) moment l.outline) id → IsWholeImage (V.disk self.old.vault).seen l id }
        ensures damaged { (l : Ledger) (recorded found : List ℕ) → (V.disk self.old.vault).tells → journal_reads (V.disk self.old.vault).seen ≡ Ok l → is_backup request.now ≡ false → result ≡ Answer.Damaged recorded found → IsOneDamaged (V.disk self.old.vault).seen l (images_read (class_of request.now) moment l.outline) recorded found }
        ensures running { result ≢ Answer.DiskFault → self.new.stopped ≡ false }
        ensures stopped { result ≡ Answer.DiskFault → self.new.stopped ≡ true }
        ensures failed { result ≡ Answer.DiskFault → Rose (V.disk self.old.vault).faults (V.disk self.new.vault).faults }
        ensures same { IsSame (V.disk self.old.vault) (V.disk self.new.vault) }
        ensures standing { (V.disk self.old.vault).tells → Standing (V.disk self.old.vault) self.old.state → result ≢ Answer.DiskFault → Standing (V.disk self.new.vault) self.new.state }
        ensures stops { (V.disk self.old.vault).tells → Standing (V.disk self.old.vault) self.old.state → Between self.old.state (reached self.old.state request.now payload.now moment result) (V.disk self.old.vault) (V.disk self.new.vault) }
    {
        let answer = carry_out(
            alloc,
            &mut self.index,
            &mut self.journal,
            &mut self.vault,
            request,
            payload,
            moment,
        );
        match answer {
            // The record may be there or not.
            Answer::DiskFault => {
                self.stopped = true;
                Answer::DiskFault
            }
            answer => answer,
        }
    }
}

impl<M: Machine> Desk<M> {
    /// Sends bytes. It changes nothing of the vault.
    pub fn send(&mut self, bytes: &[u8]) -> Result<(), Failed>
        ensures state { (M.disk self.old.vault).tells → self.new.state ≡ self.old.state }
        ensures known { (self.new.site ≡ self.old.site) × (self.new.catalogue ≡ self.old.catalogue) }
        ensures stopped { self.new.stopped ≡ self.old.stopped }
        ensures sends { (M.disk self.old.vault).tells → Sends bytes.now (M.disk self.old.vault) (M.disk self.new.vault) result }
        ensures same { IsSameBut (M.disk self.old.vault) (M.disk self.new.vault) }
        ensures cause { HasCause (M.disk self.old.vault).send_faults (M.disk self.new.vault).send_faults result }
    {
        self.vault.send(bytes)
    }
}
