use pool_journal::Staged;
use site_types::Text;

/// A record of settings that is ready to be written, and the body of what its request is answered once it is.
#[derive(Drop)]
pub struct Ready {
    pub staged: Staged,
    pub body: Text,
}
