// Lines, written field by field behind a text.
ghost use Rattle.std.specs.Prelude.{◌≡◌, ◌++◌, ℕ, List, map, take, OnOk, OnErr};
ghost use Rattle.std.specs.Fmt.{decimal};
ghost use Rattle.std.specs.List.{join_with_byte};
ghost use Rattle.site_types.specs.Ids.{id_text};
ghost use Rattle.nbstl_reports.specs.Lines.{line};
ghost use Rattle.nbstl_reports.specs.Fields.{field_text, StartsWith};

use crate::NoMemory;
use itoa::Buffer;
use site_types::{BackupId, CopyRecord};

// A field of a line.
#[derive(Drop)]
pub enum Field<'a> {
    Text(&'a [u8]),
    Number(u64),
    Id(&'a BackupId),
    // The numbers of these copies.
    Copies(&'a [CopyRecord]),
}

// What is written behind a text. Without memory a part of it may stand there.
pub trait Written {
    ghost written: { Self → List ℕ };

    fn push_to(&self, out: &mut Vec<u8>) -> Result<(), NoMemory>
        ensures written { OnOk result (out.new.items ≡ out.old.items ++ written self.now) }
        ensures begun { OnErr result (StartsWith out.old.items out.new.items) };
}

impl<'a> Written for Field<'a> {
    ghost written = { field_text };

    fn push_to(&self, out: &mut Vec<u8>) -> Result<(), NoMemory> {
        match self {
            Field::Text(text) => out.extend_from_slice(text),
            Field::Number(number) => push_number(out, *number),
            Field::Id(id) => push_id(out, id),
            Field::Copies(copies) => push_joined(out, b',', copies),
        }
    }
}

impl Written for CopyRecord {
    ghost written = { λ copy. decimal copy.number };

    fn push_to(&self, out: &mut Vec<u8>) -> Result<(), NoMemory> {
        push_number(out, u64::from(self.number))
    }
}

fn push_number(out: &mut Vec<u8>, number: u64) -> Result<(), NoMemory>
    ensures written { OnOk result (out.new.items ≡ out.old.items ++ decimal number) }
    ensures begun { OnErr result (StartsWith out.old.items out.new.items) }
{
    out.extend_from_slice(Buffer::new().format(number).as_bytes())
}

fn push_id(out: &mut Vec<u8>, id: &BackupId) -> Result<(), NoMemory>
    ensures written { OnOk result (out.new.items ≡ out.old.items ++ id_text id.now) }
    ensures begun { OnErr result (StartsWith out.old.items out.new.items) }
{
    out.extend_from_slice(id.client.bytes())?;
    out.extend_from_slice(b"_")?;
    push_number(out, id.time)
}

fn push_joined<T: Written>(out: &mut Vec<u8>, between: u8, values: &[T]) -> Result<(), NoMemory>
    ensures written { OnOk result (out.new.items ≡ out.old.items ++ join_with_byte between (map T.written values.now)) }
    ensures begun { OnErr result (StartsWith out.old.items out.new.items) }
{
    let Some((first, rest)) = values.split_first() else {
        return Ok(());
    };
    first.push_to(out)?;
    for value in rest {
        out.push(between)?;
        value.push_to(out)?;
    }
    Ok(())
}

// Writes a line behind a text. Without memory a part of it may stand there.
pub fn push_line(out: &mut Vec<u8>, fields: &[Field]) -> Result<(), NoMemory>
    ensures written { OnOk result (out.new.items ≡ out.old.items ++ line (map field_text fields.now)) }
    ensures begun { OnErr result (StartsWith out.old.items out.new.items) }
{
    push_joined(out, b' ', fields)?;
    out.extend_from_slice(b"\n")
}

// Cuts a text back to its first bytes where more could not be written whole.
pub fn whole_or_none(
    out: &mut Vec<u8>,
    before: usize,
    written: Result<(), NoMemory>,
) -> Result<(), NoMemory>
    ensures same { result ≡ written }
    ensures whole { OnOk written (out.new.items ≡ out.old.items) }
    ensures cut { OnErr written (out.new.items ≡ take before out.old.items) }
{
    if written.is_err() {
        out.truncate(before);
    }
    written
}
