//! What a person is told about the words of a command that were refused: which one, and what belongs there. It is for standard error, and changes no answer.
#![tactic(auto)]

mod arguments;
mod form_text;
mod lists;
mod mistakes;
mod site_file;
mod table;
mod telling;

pub use arguments::texts;
pub use mistakes::{is_session, takes_site_file};
pub use telling::{tell, tell_usage};
