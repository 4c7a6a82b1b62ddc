//! When jobs may start and when schedules are due: zones, weekly windows, calendars, and the next opening.
//!
//! `Zone::civil` and `next_open` never fail, and a clause of each says so: they take an allocator that they don't use, as their callers pass one to every such call.
#![tactic(auto)]

mod calendar;
mod civil;
mod next;
mod rule;
mod schedule;
#[cfg(test)]
mod tests;
mod week;
mod zone;

pub use civil::Civil;
pub use next::next_open;
pub use schedule::{Last, due};
pub use week::{Opening, is_any_open, open_at};
pub use zone::Zone;
