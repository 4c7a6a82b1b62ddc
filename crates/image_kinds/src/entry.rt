ghost use Rattle.std.specs.Prelude.{◌≡◌};
ghost use Rattle.image_kinds.specs.Streams.{path_of, IsEntry};

use crate::bytes::Bytes;

/// A file of a client, as a stream has it or an image took it. Its path and content lie in the bytes that were decoded.
#[derive(Debug, Drop)]
pub struct Entry<'a> {
    pub path: Bytes<'a>,
    /// When the file was last changed, in seconds since 1970-01-01T00:00:00Z.
    pub time: u64,
    pub content: Bytes<'a>,
}

impl<'a> Entry<'a> {
    /// The file at this path, with its time and content.
    pub fn new(path: &'a [u8], time: u64, content: &'a [u8]) -> Entry<'a>
        ensures path { result.path ≡ path.now }
        ensures time { result.time ≡ time }
        ensures content { result.content ≡ content.now }
        ensures entry { IsEntry result }
    {
        Entry {
            path: Bytes::new(path),
            time,
            content: Bytes::new(content),
        }
    }

    // The same entry once more, with no byte copied.
    pub(crate) fn again(&self) -> Entry<'a>
        ensures same { result ≡ self.now }
        ensures entry { IsEntry self.now }
    {
        Entry::new(self.path.bytes(), self.time, self.content.bytes())
    }
}

/// A path that an image names.
#[derive(Debug, Drop)]
pub enum Item<'a> {
    /// The image took the file's time and content.
    Taken(Entry<'a>),
    /// The file stood there, and an earlier image has its content.
    Kept(Bytes<'a>),
}

impl<'a> Item<'a> {
    pub fn path(&self) -> &'a [u8]
        ensures { result.now ≡ path_of self.now }
    {
        match self {
            Item::Taken(entry) => entry.path.bytes(),
            Item::Kept(path) => path.bytes(),
        }
    }
}
