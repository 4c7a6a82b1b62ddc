// Backups of a payload.
ghost use Rattle.std.specs.Prelude.{◌≡◌, ◌≤◌, ◌+◌, ◌++◌, Some, IfOk, max, codes};
ghost use Rattle.site_types.specs.Ids.{id_text};
ghost use Rattle.site_types.specs.Limits.{last_moment};
ghost use Rattle.site_types.specs.declared.answer.Answer.TheVariants as answer;
ghost use Rattle.policy_book.specs.Changes.{last_of};
ghost use Rattle.desk_model.specs.Backups.{backup_refusals, base_of, latest_version, policy_asked, schedule_asked};
ghost use Rattle.desk_model.specs.Refusals.{first_refusal};
ghost use Rattle.restore_engine.specs.Chains.{reference};
ghost use Rattle.desk_rules.specs.declared.decision.JobBody.TheVariants as body;
ghost use Rattle.desk_rules.specs.declared.decision.Change.TheVariants as change;
ghost use Rattle.desk_rules.specs.Asking.{asked_by};
ghost use Rattle.desk_rules.specs.Decisions.{backup_body};
ghost use Rattle.desk_rules.specs.Refusing.{Passes, settled};
ghost use Rattle.desk_rules.specs.Seen.{backup_answer, seen};

use crate::asked::BackupAsked;
use crate::backup_clients::check_client;
use crate::backup_room::{check_room, latest_version};
use crate::refusal::{Refusal, refused};
use crate::{Change, Decision, JobBody, NoMemory};
use desk_model::Site;
use image_catalogue::Catalogue;
use policy_book::Policy;
use restore_engine::reference;
use site_types::{Answer, BackupId, Base, Kind, Name, Schedule, Text};
use std::alloc::Global;

// The payload is sealed as an image at this moment.
pub(crate) fn decide_backup<'a>(
    alloc: Global,
    site: &Site,
    images: &Catalogue,
    asked: &BackupAsked<'_>,
    length: u64,
    moment: u64,
) -> Result<Decision<'a>, NoMemory>
    requires { moment ≤ last_moment }
    ensures { IfOk result (λ d. d ≡ settled (first_refusal (backup_refusals (asked_by asked.now) moment (seen site.now images.now))) (backup_answer (asked_by asked.now) moment (seen site.now images.now)) (change.SealNow (backup_body (asked_by asked.now) length moment (seen site.now images.now)))) }
{
    match check_backup(alloc, site, images, asked, moment) {
        Ok((policy, schedule)) => {
            let id = new_id(alloc, site, asked.client, moment)?;
            let base = base_of(alloc, images, policy, asked.client, schedule.kind)?;
            Ok(Decision {
                answer: id_answer(alloc, &id)?,
                change: Change::SealNow {
                    body: backup_body(alloc, site, id, policy, schedule, base, length)?,
                },
            })
        }
        Err(refusal) => refused(refusal),
    }
}

// The policy and the schedule under which the backup is made.
fn check_backup<'a>(
    alloc: Global,
    site: &'a Site,
    images: &Catalogue,
    asked: &BackupAsked<'_>,
    moment: u64,
) -> Result<(&'a Policy, &'a Schedule), Refusal>
    requires { moment ≤ last_moment }
    ensures passes { Passes (backup_refusals (asked_by asked.now) moment (seen site.now images.now)) result }
    ensures policy { IfOk result (λ made. policy_asked (asked_by asked.now) (seen site.now images.now) ≡ Some made.0.now) }
    ensures schedule { IfOk result (λ made. schedule_asked (asked_by asked.now) (seen site.now images.now) ≡ Some made.1.now) }
    ensures time { IfOk result (λ made. last_of asked.now.client.now site.now.book + 1 ≤ last_moment) }
{
    let policy = check_client(alloc, site, images, asked)?;
    let schedule = check_room(alloc, site, images, asked, policy, moment)?;
    Ok((policy, schedule))
}

fn new_id(alloc: Global, site: &Site, client: &Name, moment: u64) -> Result<BackupId, NoMemory>
    requires { last_of client.now site.now.book + 1 ≤ last_moment }
    ensures { IfOk result (λ id. id ≡ record { client = client.now; time = max moment (last_of client.now site.now.book + 1) }) }
{
    Ok(BackupId {
        client: client.copy(alloc)?,
        time: moment.max(site.book.last_of(client) + 1),
    })
}

// The image that the backup builds on.
fn base_of(
    alloc: Global,
    images: &Catalogue,
    policy: &Policy,
    client: &Name,
    kind: Kind,
) -> Result<Base, NoMemory>
    ensures { IfOk result (λ b. b ≡ base_of (reference policy.now.name client.now kind images.now)) }
{
    Ok(
        match reference(alloc, images, policy.name(), client, kind)? {
            Some(time) => Base::Time(time),
            None => Base::None,
        },
    )
}

fn id_answer(alloc: Global, id: &BackupId) -> Result<Answer, NoMemory>
    ensures { IfOk result (λ a. a ≡ answer.Done (id_text id.now ++ codes "\n")) }
{
    let mut line = id.text(alloc)?.bytes().to_vec(alloc)?;
    line.push(b'\n')?;
    Ok(Answer::Done {
        body: Text::from_vec(line),
    })
}

fn backup_body(
    alloc: Global,
    site: &Site,
    id: BackupId,
    policy: &Policy,
    schedule: &Schedule,
    base: Base,
    length: u64,
) -> Result<JobBody, NoMemory>
    ensures { IfOk result (λ b. b ≡ body.Backup id policy.now.name schedule.now.name schedule.now.kind base policy.now.lifecycle (latest_version policy.now.lifecycle site.now.book) length) }
{
    Ok(JobBody::Backup {
        id,
        policy: policy.name().copy(alloc)?,
        schedule: schedule.name.copy(alloc)?,
        kind: schedule.kind,
        base,
        lifecycle: policy.lifecycle().copy(alloc)?,
        version: latest_version(&site.book, policy.lifecycle()),
        length,
    })
}
