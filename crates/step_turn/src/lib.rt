//! The turn: an object that steps, shared by threads. Each thread has a seat, from which it calls the object. All calls stand in one
//! legal history, each once: each reply is what the object of one thread gives at that point, and each call comes after all that
//! its seat had seen. Nothing is said of how long a call waits, nor that it returns.
#![tactic(auto)]

mod counter;
mod entry;
mod order;
mod seat;
mod serve;
mod steps;
#[cfg(test)]
mod tests;
mod turn;
mod view;

pub use counter::{Counted, Counter};
pub use entry::{Call, Entry};
pub use seat::{Note, Receipt, Seat};
pub use steps::{Steps, StepsBy};
pub use turn::{CloseFault, NoMemory, Turn};
