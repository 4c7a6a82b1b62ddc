// How many pieces a copy has on the unit on which it is stored.
ghost use Rattle.std.specs.Prelude.{◌≡◌, [], ◌∷◌, nat_lt, codes};
ghost use Rattle.site_types.specs.declared.answer.Answer.TheVariants as answer;
ghost use Rattle.desk_model.specs.Pieces.{piece_count, piece_limit};
ghost use Rattle.desk_rules.specs.Refusing.{Passes};

use crate::refusal::Refusal;
use site_types::{Answer, Text, Unit};
use std::alloc::Global;

/// How many pieces a copy may have.
pub const PIECE_LIMIT: u64 = 1_048_576;

/// How many pieces of this size so many bytes have, where the last may have fewer bytes. At a size of 0, which no unit has, they
/// have none.
pub fn piece_count(size: u32, bytes: u64) -> u64
    ensures { result ≡ piece_count size bytes }
{
    if size == 0 {
        0
    } else {
        bytes.div_ceil(u64::from(size))
    }
}

// A copy of so many bytes has no more pieces than it may have.
pub(crate) fn check_pieces(alloc: Global, unit: &Unit, length: u64) -> Result<(), Refusal>
    ensures { Passes ((nat_lt piece_limit (piece_count unit.now.segment length), answer.TooMany (codes "pieces") (piece_count unit.now.segment length) piece_limit) ∷ []) result }
{
    let count = piece_count(unit.segment, length);
    if count > PIECE_LIMIT {
        return Err(Refusal::Answered(Answer::TooMany {
            kind: Text::new(alloc, b"pieces")?,
            count,
            limit: PIECE_LIMIT,
        }));
    }
    Ok(())
}
