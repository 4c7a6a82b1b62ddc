//! The streams of a backup site's clients, the images that are made of them, and the trees that chains of images give.
#![tactic(auto)]

mod bytes;
mod cursor;
mod decode;
mod encode;
mod entry;
mod format;
mod make;
mod merge;
mod path;
mod stream;

pub use bytes::Bytes;
pub use decode::{StreamFault, decode_image, decode_stream, one_reading, reading_is_the_grammar};
pub use encode::{encode_image, encode_stream};
pub use entry::{Entry, Item};
pub use make::make_image;
pub use merge::merge_chain;
pub use stream::{ImageBody, Stream};
