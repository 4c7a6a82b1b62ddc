// What an input gave, kept so that a payload that was refused can be explained.
use std::alloc::Global;

#[derive(Drop)]
pub(crate) struct Kept {
    bytes: Option<Vec<u8>>,
}

impl Kept {
    // Nothing is kept.
    pub(crate) fn nothing() -> Kept {
        Kept { bytes: None }
    }

    // All is kept from now on, as long as there is memory.
    pub(crate) fn all(alloc: Global) -> Kept {
        Kept {
            bytes: Some(Vec::new(alloc)),
        }
    }

    pub(crate) fn add(&mut self, more: &[u8]) {
        if let Some(bytes) = &mut self.bytes
            && bytes.extend_from_slice(more).is_err()
        {
            self.bytes = None;
        }
    }

    // None where something is missing.
    pub(crate) fn bytes(&self) -> Option<&[u8]> {
        self.bytes.as_ref().map(|bytes| bytes.as_slice())
    }
}
