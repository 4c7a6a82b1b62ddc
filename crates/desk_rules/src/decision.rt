use policy_book::StagedChange;
use schedule_windows::Zone;
use site_types::{Answer, BackupId, Base, Kind, Name};

/// What a job makes, or a request for a backup at once.
#[derive(Debug, Drop)]
pub enum JobBody {
    /// An image of so many bytes, under a version of a lifecycle.
    Backup {
        id: BackupId,
        policy: Name,
        schedule: Name,
        kind: Kind,
        base: Base,
        lifecycle: Name,
        version: u16,
        length: u64,
    },
}

impl JobBody {
    ghost use Rattle.std.specs.Prelude.{◌≡◌};
    ghost use Rattle.desk_rules.specs.Contents.{base_in, policy_in};

    /// The policy under which it is made.
    pub fn policy(&self) -> &Name
        ensures { result.now ≡ policy_in self.now }
    {
        let JobBody::Backup { policy, .. } = self;
        policy
    }

    /// The image that it builds on.
    pub fn base(&self) -> Base
        ensures { result ≡ base_in self.now }
    {
        let JobBody::Backup { base, .. } = self;
        *base
    }
}

/// A change of a site that nothing refuses.
#[derive(Debug, Drop)]
pub enum SiteChange<'a> {
    /// It was staged for the site's book.
    Book(StagedChange<'a>),
    /// This zone is set.
    Zone(Zone),
}

/// What a request changes, up to what its payload's bytes decide.
#[derive(Debug, Drop)]
pub enum Change<'a> {
    Nothing,
    /// The change of the request itself to the book or the zone.
    Settings { change: SiteChange<'a> },
    /// Those of the requests in the payload.
    Load,
    /// The image of the payload is sealed.
    SealNow { body: JobBody },
}

/// What a request is answered, and what it changes. The bytes of a payload or of an image aren't looked at: an answer that
/// they decide is Done without a body.
#[derive(Debug, Drop)]
pub struct Decision<'a> {
    pub answer: Answer,
    pub change: Change<'a>,
}
