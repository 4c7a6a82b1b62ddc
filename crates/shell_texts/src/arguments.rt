ghost use Rattle.std.specs.Prelude.{◌≡◌, map, string_bytes, IfOk};
ghost use Rattle.std.specs.Vec.Iter.{into_iter_items};

use site_types::{NoMemory, Text};
use std::alloc::Global;
use std::env;

/// The bytes of the arguments, one for one and in their order.
pub fn texts(alloc: Global, arguments: env::Args) -> Result<Vec<Text>, NoMemory>
    ensures words { IfOk result (λ words. words.items ≡ map string_bytes (into_iter_items arguments)) }
{
    let mut words = Vec::new(alloc);
    for argument in arguments {
        words.push(Text::from_vec(argument.into_bytes()))?;
    }
    Ok(words)
}
