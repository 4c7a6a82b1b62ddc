//! The words of the desk: names, ids, requests, answers, and what is recorded of units, schedules, lifecycles and images.
#![tactic(auto)]

mod answer;
mod calendar;
mod calendar_word;
mod class;
mod copies;
mod digits;
mod due;
mod fields;
mod forms;
mod id;
mod image;
mod joined;
mod keys;
mod lifecycle;
mod limit;
mod line;
mod list;
mod making;
mod name;
mod number;
mod path_word;
mod request;
mod request_words;
mod schedule;
mod text;
mod unit;
mod value_words;
mod values;
mod weekday;
mod window;
mod window_word;
mod wording;
mod zone_word;

pub use answer::Answer;
pub use calendar::{CalendarItem, Day};
pub use calendar_word::read_calendar;
pub use class::ByClass;
pub use copies::{Copied, copy_all};
pub use due::DueBackup;
pub use fields::{Ended, FieldFault, Fields};
pub use forms::{Class, Form, FormName, all_forms};
pub use id::BackupId;
pub use image::{Base, CopyRecord, Expiry, ImageRecord, Kind};
pub use lifecycle::{OpState, Operation, Retention};
pub use limit::{LAST_MOMENT, PAYLOAD_LIMIT};
pub use list::ListOf;
pub use name::Name;
pub use number::{read_number, read_number_between};
pub use path_word::written_path;
pub use request::{Request, WordFault};
pub use schedule::{Mode, PolicyType, Schedule, Start};
pub use text::Text;
pub use unit::Unit;
pub use window::{Window, Windows};
pub use window_word::read_windows;

/// No memory was left.
pub type NoMemory = std::alloc::AllocError;
