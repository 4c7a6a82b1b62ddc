//! The desk as a model: its state, what each request answers and what it makes of the state. The definitions are in `specs/`, and
//! `proofs/` has rows of them, worked out.
#![tactic(auto)]

mod site;
mod soundness;

pub use site::Site;
pub use soundness::{kept_copies_restore, states_are_sound};
