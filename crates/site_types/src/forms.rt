// The table of forms. Reading a request's words, writing them again, whether a line may name a payload, and the class of a form
// all come from its rows: a new form is one row here, the request that its values make, and how that request is written.
ghost use Rattle.std.specs.Prelude.{◌≡◌, ◌≤◌, length, map, find, option_map, true, IfSome};
ghost use Rattle.std.specs.List.{list_any};
ghost use Rattle.std.specs.Str.{bytes_eq};
ghost use Rattle.site_types.specs.Forms.{begins, count_of, form_among, form_named, forms, has_second, row_stated};
ghost use Rattle.site_types.specs.Requests.{formless};

use crate::Text;
use crate::keys::{FormKey, Grammar};

/// The forms, in the order of their table.
#[derive(Clone, Copy, Debug)]
pub enum FormName {
    UnitAdd,
    UnitChange,
    ClientAdd,
    ClientRemove,
    PolicyAdd,
    PolicyChange,
    PolicyRemove,
    PolicyClientAdd,
    PolicyClientRemove,
    PolicySelect,
    PolicyUnselect,
    ScheduleAdd,
    ScheduleChange,
    ScheduleRemove,
    ZoneSet,
    Load,
    Backup,
    Restore,
}

/// Which of the rules of the desk a form comes under.
#[derive(Clone, Copy, Debug)]
pub enum Class {
    SiteChange,
    SiteFile,
    Backup,
    Restore,
}

/// A row of the table of forms.
#[derive(Clone, Copy, Debug)]
pub struct Form {
    pub name: FormName,
    /// Its first word, and its second one where it has two.
    pub first: &'static [u8],
    pub second: Option<&'static [u8]>,
    /// Its keys, in the order in which they are written.
    pub keys: &'static [FormKey],
    /// A line of it may name a payload.
    pub takes_payload: bool,
    pub class: Class,
}

macro_rules! key {
    ($name:literal, $least:literal, $greatest:literal) => {
        key!($name, Grammar::Number { least: $least, greatest: $greatest })
    };
    ($name:literal, $grammar:expr) => {
        FormKey {
            name: $name,
            grammar: $grammar,
        }
    };
}

pub const NAME: FormKey = key!(b"name", Grammar::Name);

pub const POLICY: FormKey = key!(b"policy", Grammar::Name);

pub const CLIENT: FormKey = key!(b"client", Grammar::Name);

pub const SCHEDULE: FormKey = key!(b"schedule", Grammar::Name);

pub const LIFECYCLE: FormKey = key!(b"lifecycle", Grammar::Name);

pub const CAPACITY: FormKey = key!(b"capacity", 1, 1_125_899_906_842_624);

pub const SEGMENT: FormKey = key!(b"segment", 16, 131_072);

pub const FRAGMENT: FormKey = key!(b"fragment", 1, 1_048_576);

pub const SLOTS: FormKey = key!(b"slots", 1, 16_777_216);

pub const HIGH: FormKey = key!(b"high", 1, 100);

pub const LOW: FormKey = key!(b"low", 0, 99);

pub const TYPE: FormKey = key!(b"type", Grammar::PolicyType);

pub const ACTIVE: FormKey = key!(b"active", Grammar::YesOrNo);

pub const PATH: FormKey = key!(b"path", Grammar::Path);

pub const KIND: FormKey = key!(b"kind", Grammar::Kind);

pub const FREQUENCY: FormKey = key!(b"frequency", 1, 3_153_600_000);

pub const CALENDAR: FormKey = key!(b"calendar", Grammar::Calendar);

pub const WINDOWS: FormKey = key!(b"windows", Grammar::Windows);

pub const RULE: FormKey = key!(b"rule", Grammar::Rule);

pub const OFFSET: FormKey = key!(b"offset", Grammar::Offset);

pub const START: FormKey = key!(b"start", Grammar::Start);

pub const ID: FormKey = key!(b"id", Grammar::Id);

pub const COPY: FormKey = key!(b"copy", 1, 32);

pub const BEFORE: FormKey = key!(b"before", 0, 250_000_000_000);

macro_rules! form {
    ($name:ident, $class:ident, $takes_payload:literal, $first:literal, $second:expr, $keys:expr) => {
        Form {
            name: FormName::$name,
            first: $first,
            second: $second,
            keys: &$keys,
            takes_payload: $takes_payload,
            class: Class::$class,
        }
    };
}

// A change of the site has two words, and takes no payload.
macro_rules! change {
    ($name:ident, $first:literal, $second:literal, $keys:expr) => {
        form!($name, SiteChange, false, $first, Some($second), $keys)
    };
}

pub const UNIT_ADD: Form =
    change! { UnitAdd, b"unit", b"add", [NAME, CAPACITY, SEGMENT, FRAGMENT, SLOTS, HIGH, LOW] };

pub const UNIT_CHANGE: Form =
    change! { UnitChange, b"unit", b"change", [NAME, CAPACITY, SLOTS, HIGH, LOW] };

pub const CLIENT_ADD: Form = change! { ClientAdd, b"client", b"add", [NAME] };

pub const CLIENT_REMOVE: Form = change! { ClientRemove, b"client", b"remove", [NAME] };

pub const POLICY_ADD: Form =
    change! { PolicyAdd, b"bppolicynew", b"add", [POLICY, TYPE, LIFECYCLE] };

pub const POLICY_CHANGE: Form =
    change! { PolicyChange, b"bppolicynew", b"change", [POLICY, ACTIVE, LIFECYCLE] };

pub const POLICY_REMOVE: Form = change! { PolicyRemove, b"bppolicynew", b"remove", [POLICY] };

pub const POLICY_CLIENT_ADD: Form =
    change! { PolicyClientAdd, b"bppolicynew", b"client-add", [POLICY, CLIENT] };

pub const POLICY_CLIENT_REMOVE: Form =
    change! { PolicyClientRemove, b"bppolicynew", b"client-remove", [POLICY, CLIENT] };

pub const POLICY_SELECT: Form = change! { PolicySelect, b"bppolicynew", b"select", [POLICY, PATH] };

pub const POLICY_UNSELECT: Form =
    change! { PolicyUnselect, b"bppolicynew", b"unselect", [POLICY, PATH] };

pub const SCHEDULE_ADD: Form =
    change! { ScheduleAdd, b"bpplsched", b"add", [POLICY, SCHEDULE, KIND, FREQUENCY, CALENDAR, WINDOWS] };

pub const SCHEDULE_CHANGE: Form =
    change! { ScheduleChange, b"bpplsched", b"change", [POLICY, SCHEDULE, KIND, FREQUENCY, CALENDAR, WINDOWS] };

pub const SCHEDULE_REMOVE: Form =
    change! { ScheduleRemove, b"bpplsched", b"remove", [POLICY, SCHEDULE] };

pub const ZONE_SET: Form = change! { ZoneSet, b"bpzone", b"set", [RULE, OFFSET] };

pub const LOAD: Form = form! { Load, SiteFile, true, b"bpload", None, [] };

pub const BACKUP: Form =
    form! { Backup, Backup, true, b"bpbackup", None, [CLIENT, POLICY, SCHEDULE, START] };

pub const RESTORE: Form =
    form! { Restore, Restore, false, b"bprestore", None, [ID, COPY, CLIENT, POLICY, BEFORE] };

static FORMS: [Form; 18] = [
    UNIT_ADD,
    UNIT_CHANGE,
    CLIENT_ADD,
    CLIENT_REMOVE,
    POLICY_ADD,
    POLICY_CHANGE,
    POLICY_REMOVE,
    POLICY_CLIENT_ADD,
    POLICY_CLIENT_REMOVE,
    POLICY_SELECT,
    POLICY_UNSELECT,
    SCHEDULE_ADD,
    SCHEDULE_CHANGE,
    SCHEDULE_REMOVE,
    ZONE_SET,
    LOAD,
    BACKUP,
    RESTORE,
];

/// The table of forms.
#[tactic(auto, unfolding(crate::specs::Forms::forms))]
pub fn all_forms() -> &'static [Form]
    ensures { map row_stated result.now ≡ forms }
{
    &FORMS
}

impl Form {
    // These words begin with its own.
    fn begins(&self, words: &[Text]) -> bool
        ensures { result ≡ begins self.now.first.now (option_map (λ word. word.now) self.now.second) words.now }
    {
        match words.split_first() {
            Some((word, further)) => self.first == word.bytes() && self.has_second(further),
            None => false,
        }
    }

    fn has_second(&self, words: &[Text]) -> bool
        ensures { result ≡ has_second (option_map (λ word. word.now) self.now.second) words.now }
    {
        match (self.second, words.first()) {
            (None, _) => true,
            (Some(_), None) => false,
            (Some(second), Some(word)) => second == word.bytes(),
        }
    }

    /// How many words stand before those of its keys.
    pub fn count(&self) -> usize
        ensures { result ≡ count_of (option_map (λ word. word.now) self.now.second) }
    {
        if self.second.is_some() { 2 } else { 1 }
    }
}

// The row whose words stand at the front of these.
fn row_among(rows: &[Form], words: &[Text]) -> Option<Form>
    ensures { option_map row_stated result ≡ find (λ f. begins f.first f.second words.now) (map row_stated rows.now) }
{
    for row in rows {
        if row.begins(words) {
            return Some(*row);
        }
    }
    None
}

// Some row begins with this word.
fn is_first(rows: &[Form], word: &[u8]) -> bool
    ensures { result ≡ list_any (λ f. bytes_eq f.first word.now) (map row_stated rows.now) }
{
    for row in rows {
        if row.first == word {
            return true;
        }
    }
    false
}

/// The form whose words stand at the front of these.
pub fn form_among(words: &[Text]) -> Option<Form>
    ensures row { option_map row_stated result ≡ form_among words.now }
    ensures named { IfSome result (λ form. row_stated form ≡ form_named form.name) }
    ensures begun { IfSome result (λ form. begins (row_stated form).first (row_stated form).second words.now ≡ true) }
{
    row_among(all_forms(), words)
}

// The index of the word that is none of a form: of the second one where some form begins with the first.
pub fn formless(words: &[Text]) -> u64
    ensures index { result ≡ formless words.now }
    ensures within { result ≤ length words.now }
{
    let Some((word, _)) = words.split_first() else {
        return 0;
    };
    if is_first(all_forms(), word.bytes()) {
        1
    } else {
        0
    }
}
