use crate::{BackupId, Name, Request, Start};

/// A request by its class, with what that class asks for.
#[derive(Clone, Copy, Debug)]
pub enum ByClass<'a> {
    /// A change of the site: of its book, or of its zone.
    SiteChange(&'a Request),
    /// The requests of the site file that is the payload are carried out, all of them or none.
    SiteFile,
    /// The payload is backed up as a new image of the client.
    Backup {
        client: &'a Name,
        policy: Option<&'a Name>,
        schedule: Option<&'a Name>,
        start: Option<Start>,
    },
    /// An image's bytes are given back.
    Restore {
        id: &'a BackupId,
        copy: Option<u8>,
    },
    /// What a client has under a policy is given back as it was at a moment.
    RestoreAt {
        client: &'a Name,
        policy: &'a Name,
        before: Option<u64>,
    },
}
