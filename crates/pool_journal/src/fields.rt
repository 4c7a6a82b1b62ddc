// Reading the fields of a record.
ghost use Rattle.site_types.specs.Fields.{borrowed};
ghost use Rattle.pool_journal.specs.Fields.{string_field, strings_field, name_field, kind_field, base_field, IsField};

use site_types::{Base, FieldFault, Fields, Kind, ListOf, Name, Text};
use std::alloc::Global;

fn read_string<'a>(fields: &mut Fields<'a>) -> Result<&'a [u8], FieldFault>
    ensures { IsField (borrowed result) (string_field fields.old) fields.new }
{
    let count = fields.short()?;
    Ok(fields.bytes(u64::from(count))?)
}

fn read_text(fields: &mut Fields, alloc: Global) -> Result<Text, FieldFault>
    ensures { IsField result (string_field fields.old) fields.new }
{
    let bytes = read_string(fields)?;
    Ok(Text::new(alloc, bytes)?)
}

/// So many strings.
#[tactic(auto, using(crate::proofs::Many::read_broken))]
pub fn read_strings(
    fields: &mut Fields,
    alloc: Global,
    count: u32,
) -> Result<ListOf<Text>, FieldFault>
    ensures { IsField result (strings_field count fields.old) fields.new }
{
    let mut texts = Vec::new(alloc);
    for _ in 0..count {
        texts.push(read_text(fields, alloc)?)?;
    }
    Ok(ListOf::from_vec(texts))
}

pub fn read_name(fields: &mut Fields, alloc: Global) -> Result<Name, FieldFault>
    ensures { IsField result (name_field fields.old) fields.new }
{
    let left = fields.rest().len();
    let text = read_string(fields)?;
    match Name::new(alloc, text)? {
        Some(name) => Ok(name),
        None => Err(FieldFault::Broken(left)),
    }
}

pub fn read_kind(fields: &mut Fields) -> Result<Kind, FieldFault>
    ensures { IsField result (kind_field fields.old) fields.new }
{
    let left = fields.rest().len();
    match fields.byte()? {
        0 => Ok(Kind::Full),
        1 => Ok(Kind::Differential),
        2 => Ok(Kind::Cumulative),
        _ => Err(FieldFault::Broken(left)),
    }
}

pub fn read_base(fields: &mut Fields) -> Result<Base, FieldFault>
    ensures { IsField result (base_field fields.old) fields.new }
{
    match fields.long()? {
        0 => Ok(Base::None),
        time => Ok(Base::Time(time)),
    }
}
