// The texts of answers, made of their parts.
ghost use Rattle.std.specs.Prelude.{◌≡◌, ◌++◌, codes, OnOk, IfOk};
ghost use Rattle.std.specs.Fmt.{decimal};
ghost use Rattle.hex.specs.Hex.{encode_lower};
ghost use Rattle.site_types.specs.Ids.{id_text};

use crate::{BackupId, NoMemory};
use itoa::Buffer;
use std::alloc::Global;

pub fn push_number(text: &mut Vec<u8>, number: u64) -> Result<(), NoMemory>
    ensures { OnOk result (text.new.items ≡ text.old.items ++ decimal number) }
{
    text.extend_from_slice(Buffer::new().format(number).as_bytes())
}

pub fn joined(alloc: Global, name: &[u8], after: &[u8]) -> Result<Vec<u8>, NoMemory>
    ensures { IfOk result (λ v. v.items ≡ name.now ++ after.now) }
{
    let mut text = name.to_vec(alloc)?;
    text.extend_from_slice(after)?;
    Ok(text)
}

pub fn numbered(
    alloc: Global,
    before: &[u8],
    number: u64,
    after: &[u8],
) -> Result<Vec<u8>, NoMemory>
    ensures { IfOk result (λ v. v.items ≡ before.now ++ decimal number ++ after.now) }
{
    let mut text = before.to_vec(alloc)?;
    push_number(&mut text, number)?;
    text.extend_from_slice(after)?;
    Ok(text)
}

pub fn in_use(alloc: Global, name: &[u8], user: &[u8]) -> Result<Vec<u8>, NoMemory>
    ensures { IfOk result (λ v. v.items ≡ name.now ++ codes " in use by " ++ user.now ++ codes "\n") }
{
    let mut text = joined(alloc, name, b" in use by ")?;
    text.extend_from_slice(user)?;
    text.extend_from_slice(b"\n")?;
    Ok(text)
}

fn push_limit(text: &mut Vec<u8>, count: u64, limit: u64) -> Result<(), NoMemory>
    ensures { OnOk result (text.new.items ≡ text.old.items ++ decimal count ++ codes " of " ++ decimal limit ++ codes "\n") }
{
    push_number(text, count)?;
    text.extend_from_slice(b" of ")?;
    push_number(text, limit)?;
    text.extend_from_slice(b"\n")
}

pub fn above_high(alloc: Global, unit: &[u8], used: u64, capacity: u64) -> Result<Vec<u8>, NoMemory>
    ensures { IfOk result (λ v. v.items ≡ unit.now ++ codes " above high: " ++ decimal used ++ codes " of " ++ decimal capacity ++ codes "\n") }
{
    let mut text = joined(alloc, unit, b" above high: ")?;
    push_limit(&mut text, used, capacity)?;
    Ok(text)
}

pub fn unit_full(
    alloc: Global,
    unit: &[u8],
    used: u64,
    length: u64,
    capacity: u64,
) -> Result<Vec<u8>, NoMemory>
    ensures { IfOk result (λ v. v.items ≡ unit.now ++ codes " full: " ++ decimal used ++ codes " + " ++ decimal length ++ codes " of " ++ decimal capacity ++ codes "\n") }
{
    let mut text = joined(alloc, unit, b" full: ")?;
    push_number(&mut text, used)?;
    text.extend_from_slice(b" + ")?;
    push_limit(&mut text, length, capacity)?;
    Ok(text)
}

pub fn short(alloc: Global, position: u64, length: u64) -> Result<Vec<u8>, NoMemory>
    ensures { IfOk result (λ v. v.items ≡ codes "short: " ++ decimal position ++ codes " of " ++ decimal length ++ codes "\n") }
{
    let mut text = b"short: ".to_vec(alloc)?;
    push_limit(&mut text, position, length)?;
    Ok(text)
}

pub fn too_many(alloc: Global, kind: &[u8], count: u64, limit: u64) -> Result<Vec<u8>, NoMemory>
    ensures { IfOk result (λ v. v.items ≡ codes "too many " ++ kind.now ++ codes ": " ++ decimal count ++ codes " of " ++ decimal limit ++ codes "\n") }
{
    let mut text = joined(alloc, b"too many ", kind)?;
    text.extend_from_slice(b": ")?;
    push_limit(&mut text, count, limit)?;
    Ok(text)
}

pub fn chain_broken(alloc: Global, id: &BackupId) -> Result<Vec<u8>, NoMemory>
    ensures { IfOk result (λ v. v.items ≡ codes "chain lacks " ++ id_text id.now ++ codes "\n") }
{
    let missing = id.text(alloc)?;
    let mut text = joined(alloc, b"chain lacks ", missing.bytes())?;
    text.extend_from_slice(b"\n")?;
    Ok(text)
}

fn push_digest(text: &mut Vec<u8>, digest: &[u8; 32]) -> Result<(), NoMemory>
    ensures { OnOk result (text.new.items ≡ text.old.items ++ encode_lower digest.now) }
{
    let mut digits = [0u8; 64];
    if hex::encode_to_slice(digest, &mut digits).is_err() {
        unreachable!();
    }
    text.extend_from_slice(&digits)
}

pub fn damaged(alloc: Global, recorded: &[u8; 32], found: &[u8; 32]) -> Result<Vec<u8>, NoMemory>
    ensures { IfOk result (λ v. v.items ≡ codes "damaged: " ++ encode_lower recorded.now ++ codes " found " ++ encode_lower found.now ++ codes "\n") }
{
    let mut text = b"damaged: ".to_vec(alloc)?;
    push_digest(&mut text, recorded)?;
    text.extend_from_slice(b" found ")?;
    push_digest(&mut text, found)?;
    text.extend_from_slice(b"\n")?;
    Ok(text)
}
