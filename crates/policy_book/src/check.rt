// The staged change of a book that a request asks for.
ghost use Rattle.std.specs.Prelude.{◌≡◌, true, IfOk};
ghost use Rattle.policy_book.specs.Refusals.{Allows};
ghost use Rattle.policy_book.specs.Requests.{is_of_book, refusals_of};
ghost use Rattle.policy_book.specs.Staged.{IsStaged};

use crate::book::Book;
use crate::refusals::known_place;
use crate::{BookFault, NewUnit, PolicyChange, StagedChange, UnitChange};
use site_types::Request;
use std::alloc::Global;

impl Book {
    /// The change that a request asks for, to be carried out on this book. Where something refuses it, the answer is the first
    /// reason that holds.
    pub fn check<'a>(
        &self,
        alloc: Global,
        request: &'a Request,
    ) -> Result<StagedChange<'a>, BookFault>
        requires of_book { is_of_book request.now ≡ true }
        ensures allows { Allows (refusals_of request.now self.now) result }
        ensures staged { IfOk result (λ change. IsStaged self.now request.now change) }
    {
        match request {
            Request::UnitAdd {
                name,
                capacity,
                segment,
                fragment,
                slots,
                high,
                low,
            } => {
                self.check_unit_add(alloc, name)?;
                let unit = NewUnit {
                    capacity: *capacity,
                    segment: *segment,
                    fragment: *fragment,
                    slots: *slots,
                    high: *high,
                    low: *low,
                };
                Ok(StagedChange::AddUnit { name, unit })
            }
            Request::UnitChange {
                name,
                capacity,
                slots,
                high,
                low,
            } => {
                let at = known_place(alloc, &self.units, name)?;
                let change = UnitChange {
                    capacity: *capacity,
                    slots: *slots,
                    high: *high,
                    low: *low,
                };
                Ok(StagedChange::ChangeUnit { name, at, change })
            }
            Request::ClientAdd { name } => {
                self.check_client_add(alloc, name)?;
                Ok(StagedChange::AddClient { name })
            }
            Request::ClientRemove { name } => {
                self.check_client_remove(alloc, name)?;
                Ok(StagedChange::RemoveClient { name })
            }
            Request::PolicyAdd {
                policy,
                policy_type,
                lifecycle,
            } => {
                self.check_policy_add(alloc, policy, lifecycle)?;
                Ok(StagedChange::AddPolicy {
                    name: policy,
                    kind: *policy_type,
                    lifecycle,
                })
            }
            Request::PolicyChange {
                policy,
                active,
                lifecycle,
            } => {
                let lifecycle = lifecycle.as_ref();
                let at = self.check_policy_change(alloc, policy, lifecycle)?;
                let change = PolicyChange::Set {
                    active: *active,
                    lifecycle,
                };
                Ok(StagedChange::ChangePolicy { policy, at, change })
            }
            Request::PolicyRemove { policy } => {
                self.check_policy_remove(alloc, policy)?;
                Ok(StagedChange::RemovePolicy { name: policy })
            }
            Request::PolicyClientAdd { policy, client } => {
                let at = self.check_list(alloc, policy, client)?;
                let change = PolicyChange::AddClient { client };
                Ok(StagedChange::ChangePolicy { policy, at, change })
            }
            Request::PolicyClientRemove { policy, client } => {
                let at = self.check_unlist(alloc, policy, client)?;
                let change = PolicyChange::RemoveClient { client };
                Ok(StagedChange::ChangePolicy { policy, at, change })
            }
            Request::PolicySelect { policy, path } => {
                let at = self.check_select(alloc, policy, path)?;
                let change = PolicyChange::AddPath { path };
                Ok(StagedChange::ChangePolicy { policy, at, change })
            }
            Request::PolicyUnselect { policy, path } => {
                let at = self.check_unselect(alloc, policy, path)?;
                let change = PolicyChange::RemovePath { path };
                Ok(StagedChange::ChangePolicy { policy, at, change })
            }
            Request::ScheduleAdd {
                policy,
                schedule,
                kind,
                frequency,
                calendar,
                windows,
            } => {
                let at = self.check_schedule_add(alloc, policy, schedule, *kind)?;
                let change = PolicyChange::PutSchedule {
                    schedule,
                    kind: *kind,
                    frequency: *frequency,
                    calendar: calendar.as_ref(),
                    windows,
                };
                Ok(StagedChange::ChangePolicy { policy, at, change })
            }
            Request::ScheduleChange {
                policy,
                schedule,
                kind,
                frequency,
                calendar,
                windows,
            } => {
                let at = self.check_schedule_change(alloc, policy, schedule, *kind)?;
                let change = PolicyChange::PutSchedule {
                    schedule,
                    kind: *kind,
                    frequency: *frequency,
                    calendar: calendar.as_ref(),
                    windows,
                };
                Ok(StagedChange::ChangePolicy { policy, at, change })
            }
            Request::ScheduleRemove { policy, schedule } => {
                let at = self.check_schedule_remove(alloc, policy, schedule)?;
                let change = PolicyChange::RemoveSchedule { schedule };
                Ok(StagedChange::ChangePolicy { policy, at, change })
            }
            Request::ZoneSet { .. }
            | Request::Load
            | Request::Backup { .. }
            | Request::Restore { .. }
            | Request::RestoreAt { .. } => unreachable!(),
        }
    }
}
