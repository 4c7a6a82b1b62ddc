use crate::Name;

/// A unit of storage.
#[derive(Debug, Drop)]
pub struct Unit {
    pub name: Name,
    /// 0, 1, and so on, in the order in which units were added.
    pub number: u8,
    /// Bytes that its copies may have together.
    pub capacity: u64,
    /// The length in bytes of the segments into which copies are cut.
    pub segment: u32,
    /// How many segments a fragment has.
    pub fragment: u32,
    /// How many segments it holds at most.
    pub slots: u32,
    /// The high and low marks, in hundredths of the capacity.
    pub high: u8,
    pub low: u8,
}
