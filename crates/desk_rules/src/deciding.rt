// What a request is answered, and what it changes.
ghost use Rattle.std.specs.Prelude.{◌≡◌, ◌≤◌, ℕ, List, length, IfOk};
ghost use Rattle.site_types.specs.Limits.{last_moment};
ghost use Rattle.site_types.specs.Lines.{IsFormed};
ghost use Rattle.desk_model.specs.State.{State};
ghost use Rattle.desk_rules.specs.Decisions.{IsDecision, IsStateOf};

use crate::asked::BackupAsked;
use crate::backups::decide_backup;
use crate::moments::decide_restore_at;
use crate::restores::decide_restore;
use crate::settings::decide_setting;
use crate::{Change, Decision, NoMemory};
use desk_model::Site;
use image_catalogue::Catalogue;
use site_types::{Answer, ByClass, Request, Text};
use std::alloc::Global;

/// What a request is answered at a moment, in seconds since 1970-01-01T00:00:00Z, and what it changes of a site with these
/// images and no open jobs. Of the payload only its length in bytes is looked at. The one error is that no memory was left.
pub fn decide<'a>(
    alloc: Global,
    site: &Site,
    images: &Catalogue,
    request: &'a Request,
    payload: u64,
    moment: u64,
) -> Result<Decision<'a>, NoMemory>
    requires moment { moment ≤ last_moment }
    requires formed { IsFormed request.now }
    ensures decided { (s : State) (bytes : List ℕ) → IsStateOf site.now images.now s → length bytes ≡ payload → IfOk result (IsDecision s request.now bytes moment) }
{
    match request.by_class() {
        ByClass::SiteChange(change) => decide_setting(alloc, site, images, change),
        ByClass::SiteFile => Ok(Decision {
            answer: Answer::Done {
                body: Text::from_vec(Vec::new(alloc)),
            },
            change: Change::Load,
        }),
        ByClass::Backup {
            client,
            policy,
            schedule,
            start,
        } => {
            let asked = BackupAsked::new(alloc, client, policy, schedule, start)?;
            decide_backup(alloc, site, images, &asked, payload, moment)
        }
        ByClass::Restore { id, copy } => decide_restore(alloc, images, id, copy),
        ByClass::RestoreAt {
            client,
            policy,
            before,
        } => {
            let before = before.unwrap_or(moment);
            decide_restore_at(alloc, site, images, client, policy, before)
        }
    }
}
