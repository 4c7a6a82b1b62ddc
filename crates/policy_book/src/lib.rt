//! The book of a site: its units, clients, lifecycles and policies, and each change of them.
#![tactic(auto)]

mod apply;
mod book;
mod check;
mod client;
mod clients;
mod fault;
mod initial;
mod policies;
mod policy;
mod policy_lists;
mod refusals;
mod request_lines;
mod site_file;
mod site_requests;
mod staged;
mod units;

pub use book::Book;
pub use client::Client;
pub use clients::CLIENT_LIMIT;
pub use fault::{BookFault, LoadFault};
pub use initial::first_unit;
pub use policy::Policy;
pub use refusals::pair_text;
pub use site_requests::load;
pub use staged::{PolicyChange, StagedChange};
pub use units::{NewUnit, UnitChange};

/// No memory was left.
pub type NoMemory = std::alloc::AllocError;
