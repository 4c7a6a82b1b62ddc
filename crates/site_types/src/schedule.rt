use crate::{CalendarItem, Kind, ListOf, Name, Windows};

/// When a schedule comes round.
#[derive(Debug, Drop)]
pub enum Mode {
    /// So many seconds after the schedule's last image.
    Frequency(u64),
    /// On the days that these items name and none excludes.
    Calendar(ListOf<CalendarItem>),
}

/// One of a policy's schedules.
#[derive(Debug, Drop)]
pub struct Schedule {
    pub name: Name,
    pub kind: Kind,
    pub mode: Mode,
    pub windows: Windows,
}

/// What a policy's backups are made of: a client's files, or bytes as they come.
#[derive(Clone, Copy, Debug)]
pub enum PolicyType {
    Files,
    Raw,
}

/// Who starts a backup. A scheduled one waits for a window of its schedule, a manual one doesn't.
#[derive(Clone, Copy, Debug)]
pub enum Start {
    Manual,
    Scheduled,
}
