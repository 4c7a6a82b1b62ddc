//! The runs of the program: words and a source in, a reply and a status out.
#![tactic(auto)]

mod execute;
mod frame;
mod gather;
mod payload;
mod serve;
mod session;
mod turn;
mod words;

pub use session::run;
