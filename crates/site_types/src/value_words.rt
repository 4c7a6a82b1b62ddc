// Values that are one of a few words.
ghost use Rattle.std.specs.Prelude.{◌≡◌};
ghost use Rattle.site_types.specs.Values.{kind_of, kind_text, type_of, type_text, yes_or_no, yes_or_no_text, start_of, start_text};

use crate::{Kind, PolicyType, Start};

/// The kind that a text names: `full`, `diff` or `cumul`.
pub fn read_kind(text: &[u8]) -> Option<Kind>
    ensures { result ≡ kind_of text.now }
{
    match text {
        b"full" => Some(Kind::Full),
        b"diff" => Some(Kind::Differential),
        b"cumul" => Some(Kind::Cumulative),
        _ => None,
    }
}

/// The type that a text names: `files` or `raw`.
pub fn read_policy_type(text: &[u8]) -> Option<PolicyType>
    ensures { result ≡ type_of text.now }
{
    match text {
        b"files" => Some(PolicyType::Files),
        b"raw" => Some(PolicyType::Raw),
        _ => None,
    }
}

/// `yes` or `no`.
pub fn read_yes_or_no(text: &[u8]) -> Option<bool>
    ensures { result ≡ yes_or_no text.now }
{
    match text {
        b"yes" => Some(true),
        b"no" => Some(false),
        _ => None,
    }
}

/// Who starts a backup: `manual` or `scheduled`.
pub fn read_start(text: &[u8]) -> Option<Start>
    ensures { result ≡ start_of text.now }
{
    if text == b"manual".as_slice() {
        return Some(Start::Manual);
    }
    if text == b"scheduled".as_slice() {
        return Some(Start::Scheduled);
    }
    None
}

pub fn kind_text(kind: Kind) -> &'static [u8]
    ensures { result.now ≡ kind_text kind }
{
    match kind {
        Kind::Full => b"full",
        Kind::Differential => b"diff",
        Kind::Cumulative => b"cumul",
    }
}

pub fn type_text(policy_type: PolicyType) -> &'static [u8]
    ensures { result.now ≡ type_text policy_type }
{
    match policy_type {
        PolicyType::Files => b"files",
        PolicyType::Raw => b"raw",
    }
}

pub fn yes_or_no_text(answer: bool) -> &'static [u8]
    ensures { result.now ≡ yes_or_no_text answer }
{
    if answer { b"yes" } else { b"no" }
}

pub fn start_text(start: Start) -> &'static [u8]
    ensures { result.now ≡ start_text start }
{
    match start {
        Start::Manual => b"manual",
        Start::Scheduled => b"scheduled",
    }
}
