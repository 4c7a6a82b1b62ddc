ghost use Rattle.std.specs.Prelude.{◌≡◌, codes, IfOk, unwrap_or, option_map};
ghost use Rattle.std.specs.Option.{option_copied};
ghost use Rattle.desk_model.specs.Backups.{asked_of};
ghost use Rattle.desk_rules.specs.Asking.{asked_by};

use crate::NoMemory;
use site_types::{Name, Start};
use std::alloc::Global;

// What a backup is asked for: who is backed up, under which policy and schedule, and at whose wish.
#[derive(Debug, Drop)]
pub(crate) struct BackupAsked<'a> {
    pub client: &'a Name,
    pub policy: Name,
    pub schedule: Option<&'a Name>,
    pub start: Start,
}

impl<'a> BackupAsked<'a> {
    // Where none is named the policy is adhoc and the start manual.
    pub fn new(
        alloc: Global,
        client: &'a Name,
        policy: Option<&Name>,
        schedule: Option<&'a Name>,
        start: Option<Start>,
    ) -> Result<BackupAsked<'a>, NoMemory>
        ensures { IfOk result (λ asked. asked_by asked ≡ asked_of client.now (option_map (λ p. p.now) policy.entry) (option_map (λ s. s.now) schedule.entry) start) }
    {
        Ok(BackupAsked {
            client,
            policy: named_or_adhoc(alloc, policy)?,
            schedule,
            start: start.unwrap_or(Start::Manual),
        })
    }
}

fn named_or_adhoc(alloc: Global, policy: Option<&Name>) -> Result<Name, NoMemory>
    ensures { IfOk result (λ name. name ≡ unwrap_or (option_copied policy.entry) (codes "adhoc")) }
{
    match policy {
        Some(policy) => policy.copy(alloc),
        None => adhoc(alloc),
    }
}

fn adhoc(alloc: Global) -> Result<Name, NoMemory>
    ensures { IfOk result (λ name. name ≡ codes "adhoc") }
{
    match Name::new(alloc, b"adhoc")? {
        Some(name) => Ok(name),
        None => unreachable!(),
    }
}
