// Paths, as they stand in a word.
ghost use Rattle.std.specs.Prelude.{◌≡◌, ◌<◌, ◌∷◌, ◌++◌, length, IfOk, OnOk, MatchOption, []};
ghost use Rattle.std.specs.List.{list_all};
ghost use Rattle.site_types.specs.Paths.{is_path_byte, is_path, hex_digit, hex_value, is_escaped, byte_of, unwritten, path_of, written_byte, written};

use crate::{NoMemory, Text};
use std::alloc::Global;

const LONGEST_PATH: usize = 1024;

/// The path that is written so. None exactly where no path is.
pub fn read_path(alloc: Global, text: &[u8]) -> Result<Option<Text>, NoMemory>
    ensures { IfOk result (λ o. o ≡ path_of text.now) }
{
    let path = unwritten(alloc, text)?;
    if is_path(path.bytes()) && written_path(alloc, &path)?.bytes() == text {
        return Ok(Some(path));
    }
    Ok(None)
}

fn has_path_bytes_alone(path: &[u8]) -> bool
    ensures { result ≡ list_all is_path_byte path.now }
{
    path.iter().all(|byte| *byte != 0 && *byte != b'\n')
}

fn is_path(path: &[u8]) -> bool
    ensures { result ≡ is_path path.now }
{
    path.first() == Some(&b'/') && path.len() <= LONGEST_PATH && has_path_bytes_alone(path)
}

fn hex_value(digit: u8) -> u8
    ensures { result ≡ hex_value digit }
{
    if digit <= b'9' {
        digit.saturating_sub(b'0')
    } else {
        digit - (b'A' - 10)
    }
}

fn byte_of(high: u8, low: u8) -> u8
    ensures { result ≡ byte_of high low }
{
    let number = u16::from(hex_value(high)) * 16 + u16::from(hex_value(low));
    (number % 256) as u8
}

// The first byte of what a text stands for, and the text behind what stands for it.
fn split_byte(text: &[u8]) -> Option<(u8, &[u8])>
    ensures { MatchOption result (text.now ≡ []) (λ split. (unwritten text.now ≡ split.0 ∷ unwritten split.1.now) × (length split.1.now < length text.now)) }
{
    match text {
        [b'%', high, low, behind @ ..] => Some((byte_of(*high, *low), behind)),
        [byte, behind @ ..] => Some((*byte, behind)),
        [] => None,
    }
}

// The bytes that a text stands for, in which some are written with two digits.
fn unwritten(alloc: Global, text: &[u8]) -> Result<Text, NoMemory>
    ensures { IfOk result (λ t. t ≡ unwritten text.now) }
{
    let mut path = Vec::new(alloc);
    let mut rest = text;
    while let Some((byte, behind)) = split_byte(rest) {
        path.push(byte)?;
        rest = behind;
    }
    Ok(Text::from_vec(path))
}

fn hex_digit(digit: u8) -> u8
    requires { digit < 16 }
    ensures { result ≡ hex_digit digit }
{
    if digit < 10 {
        b'0' + digit
    } else {
        b'A' - 10 + digit
    }
}

// A byte that is no printed character of ASCII, or a percent sign.
fn is_escaped(byte: u8) -> bool
    ensures { result ≡ is_escaped byte }
{
    byte <= b' ' || byte == b'%' || byte >= 0x7F
}

fn push_written(word: &mut Vec<u8>, byte: u8) -> Result<(), NoMemory>
    ensures { OnOk result (word.new.items ≡ word.old.items ++ written_byte byte) }
{
    if is_escaped(byte) {
        word.push(b'%')?;
        word.push(hex_digit(byte / 16))?;
        word.push(hex_digit(byte % 16))?;
    } else {
        word.push(byte)?;
    }
    Ok(())
}

/// A path as it is written in a word: a percent sign and two digits stand for a byte that is no printed character of ASCII,
/// and for a percent sign.
pub fn written_path(alloc: Global, path: &Text) -> Result<Text, NoMemory>
    ensures { IfOk result (λ word. word ≡ written path.now) }
{
    let mut word = Vec::new(alloc);
    for byte in path.bytes() {
        push_written(&mut word, *byte)?;
    }
    Ok(Text::from_vec(word))
}
