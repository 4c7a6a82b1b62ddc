#![tactic(auto, using(crate::proofs::LineLemmas::appends))]

// The words of requests: a form, and its keys with their values.
ghost use Rattle.std.specs.Prelude.{◌≡◌, ◌++◌, [], ◌∷◌, codes, IfOk, option_copied, option_map};
ghost use Rattle.std.specs.Fmt.{decimal};
ghost use Rattle.site_types.specs.Classes.{class_of, has_payload, tag_of};
ghost use Rattle.site_types.specs.Forms.{form_of, row_stated, schedule_keys, schedule_texts};
ghost use Rattle.site_types.specs.Lines.{fields_by, fields_of, given};
ghost use Rattle.site_types.specs.LineTexts.{fields_text};
ghost use Rattle.site_types.specs.declared.request.Request.TheVariants.{PolicyAdd};

use crate::forms::{
    ACTIVE, BACKUP, BEFORE, CALENDAR, CAPACITY, CLIENT, CLIENT_ADD, CLIENT_REMOVE, COPY, FRAGMENT,
    FREQUENCY, Form, HIGH, ID, KIND, LIFECYCLE, LOAD, LOW, NAME, OFFSET, PATH, POLICY, POLICY_ADD,
    POLICY_CHANGE, POLICY_CLIENT_ADD, POLICY_CLIENT_REMOVE, POLICY_REMOVE, POLICY_SELECT,
    POLICY_UNSELECT, RESTORE, RULE, SCHEDULE, SCHEDULE_ADD, SCHEDULE_CHANGE, SCHEDULE_REMOVE,
    SEGMENT, SLOTS, START, TYPE, UNIT_ADD, UNIT_CHANGE, WINDOWS, ZONE_SET,
};
use crate::line::Line;
use crate::value_words::{kind_text, start_text, type_text, yes_or_no_text};
use crate::{
    CalendarItem, Kind, ListOf, Name, NoMemory, PolicyType, Request, Text, Windows, written_path,
};
use std::alloc::Global;

impl Request {
    /// The row of its form.
    pub fn form(&self) -> Form
        ensures row { row_stated result ≡ form_of self.now }
        ensures payload { result.takes_payload ≡ has_payload (class_of self.now) }
        ensures class { result.class ≡ tag_of (class_of self.now) }
    {
        match self {
            Request::UnitAdd { .. } => UNIT_ADD,
            Request::UnitChange { .. } => UNIT_CHANGE,
            Request::ClientAdd { .. } => CLIENT_ADD,
            Request::ClientRemove { .. } => CLIENT_REMOVE,
            Request::PolicyAdd { .. } => POLICY_ADD,
            Request::PolicyChange { .. } => POLICY_CHANGE,
            Request::PolicyRemove { .. } => POLICY_REMOVE,
            Request::PolicyClientAdd { .. } => POLICY_CLIENT_ADD,
            Request::PolicyClientRemove { .. } => POLICY_CLIENT_REMOVE,
            Request::PolicySelect { .. } => POLICY_SELECT,
            Request::PolicyUnselect { .. } => POLICY_UNSELECT,
            Request::ScheduleAdd { .. } => SCHEDULE_ADD,
            Request::ScheduleChange { .. } => SCHEDULE_CHANGE,
            Request::ScheduleRemove { .. } => SCHEDULE_REMOVE,
            Request::ZoneSet { .. } => ZONE_SET,
            Request::Load => LOAD,
            Request::Backup { .. } => BACKUP,
            Request::Restore { .. } | Request::RestoreAt { .. } => RESTORE,
        }
    }

    // Adds its keys that have a value.
    pub fn fields(&self, alloc: Global, line: Line) -> Result<Line, NoMemory>
        ensures { IfOk result (λ made. made.text.items ≡ line.text.items ++ fields_text (fields_of self.now)) }
    {
        match self {
            Request::UnitAdd {
                name,
                capacity,
                segment,
                fragment,
                slots,
                high,
                low,
            } => line
                .name(NAME.name, name)?
                .sizes(*capacity, *segment, *fragment)?
                .limits(*slots, *high, *low),
            Request::UnitChange {
                name,
                capacity,
                slots,
                high,
                low,
            } => line
                .name(NAME.name, name)?
                .number_if(CAPACITY.name, *capacity)?
                .limits(*slots, *high, *low),
            Request::ClientAdd { name } | Request::ClientRemove { name } => {
                line.name(NAME.name, name)
            }
            Request::PolicyAdd {
                policy,
                policy_type,
                lifecycle,
            } => line.policy_added(policy, *policy_type, lifecycle),
            Request::PolicyChange {
                policy,
                active,
                lifecycle,
            } => line
                .name(POLICY.name, policy)?
                .word_if(ACTIVE.name, active.map(yes_or_no_text))?
                .name_if(LIFECYCLE.name, lifecycle.as_ref()),
            Request::PolicyRemove { policy } => line.name(POLICY.name, policy),
            Request::PolicyClientAdd { policy, client }
            | Request::PolicyClientRemove { policy, client } => {
                line.name(POLICY.name, policy)?.name(CLIENT.name, client)
            }
            Request::PolicySelect { policy, path } | Request::PolicyUnselect { policy, path } => {
                line.name(POLICY.name, policy)?
                    .word(PATH.name, written_path(alloc, path)?.bytes())
            }
            Request::ScheduleAdd {
                policy,
                schedule,
                kind,
                frequency,
                calendar,
                windows,
            }
            | Request::ScheduleChange {
                policy,
                schedule,
                kind,
                frequency,
                calendar,
                windows,
            } => line.schedule(
                policy,
                schedule,
                *kind,
                *frequency,
                calendar.as_ref(),
                windows,
            ),
            Request::ScheduleRemove { policy, schedule } => {
                line.name(POLICY.name, policy)?
                    .name(SCHEDULE.name, schedule)
            }
            Request::ZoneSet { rule, offset } => line
                .word_if(RULE.name, rule.as_ref().map(Text::bytes))?
                .offset_if(OFFSET.name, *offset),
            Request::Load => Ok(line),
            Request::Backup {
                client,
                policy,
                schedule,
                start,
            } => line
                .name(CLIENT.name, client)?
                .name_if(POLICY.name, policy.as_ref())?
                .name_if(SCHEDULE.name, schedule.as_ref())?
                .word_if(START.name, start.map(start_text)),
            Request::Restore { id, copy } => line
                .word(ID.name, id.text(alloc)?.bytes())?
                .number_if(COPY.name, copy.map(u64::from)),
            Request::RestoreAt {
                client,
                policy,
                before,
            } => line
                .name(CLIENT.name, client)?
                .name(POLICY.name, policy)?
                .number_if(BEFORE.name, *before),
        }
    }
}

impl Line {
    fn sizes(
        self,
        capacity: u64,
        segment: Option<u32>,
        fragment: Option<u32>,
    ) -> Result<Line, NoMemory>
        ensures { IfOk result (λ line. line.text.items ≡ self.text.items ++ fields_text (given (codes "capacity") (decimal capacity) ∷ (codes "segment", option_map decimal segment) ∷ (codes "fragment", option_map decimal fragment) ∷ [])) }
    {
        self.number(CAPACITY.name, capacity)?
            .number_if(SEGMENT.name, segment.map(u64::from))?
            .number_if(FRAGMENT.name, fragment.map(u64::from))
    }

    fn limits(self, slots: Option<u32>, high: Option<u8>, low: Option<u8>) -> Result<Line, NoMemory>
        ensures { IfOk result (λ line. line.text.items ≡ self.text.items ++ fields_text ((codes "slots", option_map decimal slots) ∷ (codes "high", option_map decimal high) ∷ (codes "low", option_map decimal low) ∷ [])) }
    {
        self.number_if(SLOTS.name, slots.map(u64::from))?
            .number_if(HIGH.name, high.map(u64::from))?
            .number_if(LOW.name, low.map(u64::from))
    }

    fn policy_added(
        self,
        policy: &Name,
        policy_type: PolicyType,
        lifecycle: &Name,
    ) -> Result<Line, NoMemory>
        ensures { IfOk result (λ line. line.text.items ≡ self.text.items ++ fields_text (fields_of (PolicyAdd policy.now policy_type lifecycle.now))) }
    {
        self.name(POLICY.name, policy)?
            .word(TYPE.name, type_text(policy_type))?
            .name(LIFECYCLE.name, lifecycle)
    }

    fn schedule(
        self,
        policy: &Name,
        schedule: &Name,
        kind: Kind,
        frequency: Option<u64>,
        calendar: Option<&ListOf<CalendarItem>>,
        windows: &Windows,
    ) -> Result<Line, NoMemory>
        ensures { IfOk result (λ line. line.text.items ≡ self.text.items ++ fields_text (fields_by schedule_keys (schedule_texts policy.now schedule.now kind frequency (option_copied calendar.entry) windows.now))) }
    {
        self.name(POLICY.name, policy)?
            .name(SCHEDULE.name, schedule)?
            .word(KIND.name, kind_text(kind))?
            .number_if(FREQUENCY.name, frequency)?
            .calendar_if(CALENDAR.name, calendar)?
            .windows(WINDOWS.name, windows)
    }
}
