// Written by tools/forms from the table of forms and docs/operators.md.
use crate::form_text::{FormText, KeyText, Need};

/// The lines of the usage.
pub static USAGE: [&str; 23] = [
    "usage: bpdesk FOLDER [@N] REQUEST",
    "       bpdesk FOLDER session",
    "FOLDER is the vault, @N the moment in seconds since 1970-01-01. The requests, where keys in brackets may be missing:",
    "  unit add name= capacity= [segment=] [fragment=] [slots=] [high=] [low=]",
    "  unit change name= [capacity=] [slots=] [high= low=]",
    "  client add name=",
    "  client remove name=",
    "  bppolicynew add policy= type= lifecycle=",
    "  bppolicynew change policy= [active=] [lifecycle=]",
    "  bppolicynew remove policy=",
    "  bppolicynew client-add policy= client=",
    "  bppolicynew client-remove policy= client=",
    "  bppolicynew select policy= path=",
    "  bppolicynew unselect policy= path=",
    "  bpplsched add policy= schedule= kind= (frequency= or calendar=) windows=",
    "  bpplsched change policy= schedule= kind= (frequency= or calendar=) windows=",
    "  bpplsched remove policy= schedule=",
    "  bpzone set (rule= or offset=)",
    "  bpload <FILE",
    "  bpbackup client= [policy=] [schedule=] [start=] <FILE",
    "  bprestore id= [copy=]",
    "  bprestore client= policy= [before=]",
    "The manual page bpdesk(1) has the rest.",
];

macro_rules! form {
    ($($word:literal)+ => $($need:ident $key:literal),*) => {
        FormText {
            words: &[$($word),+],
            keys: &[$(KeyText { name: $key, need: Need::$need }),*],
        }
    };
}

/// The forms, in the order of their table.
pub static FORMS: [FormText; 18] = [
    form! { "unit" "add" => Always "name", Always "capacity", Maybe "segment", Maybe "fragment", Maybe "slots", Maybe "high", Maybe "low" },
    form! { "unit" "change" => Always "name", Maybe "capacity", Maybe "slots", AllOrNone "high", AllOrNone "low" },
    form! { "client" "add" => Always "name" },
    form! { "client" "remove" => Always "name" },
    form! { "bppolicynew" "add" => Always "policy", Always "type", Always "lifecycle" },
    form! { "bppolicynew" "change" => Always "policy", Maybe "active", Maybe "lifecycle" },
    form! { "bppolicynew" "remove" => Always "policy" },
    form! { "bppolicynew" "client-add" => Always "policy", Always "client" },
    form! { "bppolicynew" "client-remove" => Always "policy", Always "client" },
    form! { "bppolicynew" "select" => Always "policy", Always "path" },
    form! { "bppolicynew" "unselect" => Always "policy", Always "path" },
    form! { "bpplsched" "add" => Always "policy", Always "schedule", Always "kind", OneOf "frequency", OneOf "calendar", Always "windows" },
    form! { "bpplsched" "change" => Always "policy", Always "schedule", Always "kind", OneOf "frequency", OneOf "calendar", Always "windows" },
    form! { "bpplsched" "remove" => Always "policy", Always "schedule" },
    form! { "bpzone" "set" => OneOf "rule", OneOf "offset" },
    form! { "bpload" =>  },
    form! { "bpbackup" => Always "client", Maybe "policy", Maybe "schedule", Maybe "start" },
    form! { "bprestore" => OneWay "id", OneWayMaybe "copy", OtherWay "client", OtherWay "policy", OtherWayMaybe "before" },
];

macro_rules! takes {
    ($key:literal => $value:literal) => {
        ($key, $value)
    };
}

/// What each key takes.
pub static TAKES: [(&str, &str); 24] = [
    takes! { "name" => "a name, 1 to 64 of A-Z a-z 0-9 . _ -" },
    takes! { "policy" => "a name, 1 to 64 of A-Z a-z 0-9 . _ -" },
    takes! { "client" => "a name, 1 to 64 of A-Z a-z 0-9 . _ -" },
    takes! { "schedule" => "a name, 1 to 64 of A-Z a-z 0-9 . _ -" },
    takes! { "lifecycle" => "a name, 1 to 64 of A-Z a-z 0-9 . _ -" },
    takes! { "capacity" => "a number from 1 to 1125899906842624" },
    takes! { "segment" => "a number from 16 to 131072" },
    takes! { "fragment" => "a number from 1 to 1048576" },
    takes! { "slots" => "a number from 1 to 16777216" },
    takes! { "high" => "a number from 1 to 100" },
    takes! { "low" => "a number from 0 to 99" },
    takes! { "type" => "files or raw" },
    takes! { "active" => "yes or no" },
    takes! { "path" => "a path as /home/a%20b, 1 to 1024 bytes: % and bytes that aren't printed are written as % and two digits" },
    takes! { "kind" => "full, diff or cumul" },
    takes! { "frequency" => "a number from 1 to 3153600000" },
    takes! { "calendar" => "up to 64 items as w1mon, mL or d2027-12-24, joined by +" },
    takes! { "windows" => "always, none, or up to 28 windows as fri/20:00:00/36000, joined by +" },
    takes! { "rule" => "a rule as CET-1CEST,M3.5.0,M10.5.0/3, and no place" },
    takes! { "offset" => "+HH:MM or -HH:MM, as +02:00" },
    takes! { "start" => "manual or scheduled" },
    takes! { "id" => "an id as a backup printed it: a name, _ and a time from 1 to 250000000000" },
    takes! { "copy" => "a number from 1 to 32" },
    takes! { "before" => "a number from 0 to 250000000000" },
];

/// The marks of a unit that is added without them.
pub const HIGH_MARK: &str = "98";

pub const LOW_MARK: &str = "80";
