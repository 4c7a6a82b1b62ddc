// Values that plus signs join in a word.
ghost use Rattle.std.specs.Prelude.{◌≡◌, ◌++◌, IfOk, OnOk, ℕ, List, Option, map};
ghost use Rattle.std.specs.List.{join_with_byte, slice_split};
ghost use Rattle.site_types.specs.Joined.{each_of, is_plus, joined_of};

use crate::{ListOf, NoMemory};
use std::alloc::Global;

// What one of the joined texts spells.
pub trait JoinedItem: Drop {
    ghost spelled: { List ℕ → Option Self };

    fn read(text: &[u8]) -> Option<Self>
        ensures { result ≡ spelled text.now };
}

fn parts(alloc: Global, text: &[u8]) -> Result<Vec<&[u8]>, NoMemory>
    ensures { IfOk result (λ parts. map (λ part. part.now) parts.items ≡ slice_split is_plus text.now) }
{
    text.split(|byte| *byte == b'+').collect(alloc)
}

#[tactic(auto, using(crate::proofs::JoinedLemmas::one_read, crate::proofs::JoinedLemmas::one_refused))]
fn read_each<T: JoinedItem>(alloc: Global, texts: &[&[u8]]) -> Result<Option<ListOf<T>>, NoMemory>
    ensures { IfOk result (λ o. o ≡ each_of T.spelled (map (λ text. text.now) texts.now)) }
{
    let mut items = Vec::new(alloc);
    for text in texts {
        let Some(item) = T::read(text) else {
            return Ok(None);
        };
        items.push(item)?;
    }
    Ok(Some(ListOf::from_vec(items)))
}

// From one to so many values, joined by `+`. None exactly where the text spells no such values.
pub fn read_joined<T: JoinedItem>(
    alloc: Global,
    text: &[u8],
    most: usize,
) -> Result<Option<ListOf<T>>, NoMemory>
    ensures { IfOk result (λ o. o ≡ joined_of T.spelled most text.now) }
{
    let parts = parts(alloc, text)?;
    if parts.len() > most {
        return Ok(None);
    }
    read_each(alloc, &parts)
}

// What is written in a word.
pub trait Written {
    ghost written: { Self → List ℕ };

    fn push_to(&self, text: &mut Vec<u8>) -> Result<(), NoMemory>
        ensures { OnOk result (text.new.items ≡ text.old.items ++ written self.now) };
}

pub fn push_joined<T: Written>(text: &mut Vec<u8>, values: &[T]) -> Result<(), NoMemory>
    ensures { OnOk result (text.new.items ≡ text.old.items ++ join_with_byte 43 (map T.written values.now)) }
{
    let Some((first, rest)) = values.split_first() else {
        return Ok(());
    };
    first.push_to(text)?;
    for value in rest {
        text.push(b'+')?;
        value.push_to(text)?;
    }
    Ok(())
}
