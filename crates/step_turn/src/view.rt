use crate::entry::{Call, Entry};
use std::collections::LinkedList;

/// A seat's number, with the calls that were made from it. No value of it is made.
pub struct Chair<Q, A> {
    pub number: u64,
    pub own: LinkedList<Call<Q, A>>,
}

/// What a seat or a note knows. No value of it is made.
pub struct View<Q, A> {
    /// The history, as far as it was seen.
    pub seen: LinkedList<Entry<Q, A>>,
    /// What others had seen that were joined since the last look.
    pub heard: LinkedList<LinkedList<Entry<Q, A>>>,
    /// One for a seat, none for a note, and more where seats were joined.
    pub chairs: LinkedList<Chair<Q, A>>,
    /// How many seats the turn has.
    pub seats: u64,
    /// How many of them are still to be made.
    pub to_make: u64,
    pub ticket: Option<u64>,
    pub has_turn: bool,
}
