use crate::Name;

/// A backup that is due: of this client, under this schedule of this policy.
#[derive(Debug, Drop)]
pub struct DueBackup {
    pub policy: Name,
    pub client: Name,
    pub schedule: Name,
}
