// Why a request isn't carried out.
ghost use Rattle.std.specs.Prelude.{◌≡◌, IfOk};
ghost use Rattle.desk_rules.specs.Refusing.{refusal_by};
ghost use Rattle.desk_rules.specs.declared.decision.Change.TheVariants as change;
ghost use Rattle.desk_rules.specs.declared.refusal.Refusal.TheVariants as variant;

use crate::{Change, Decision, NoMemory};
use policy_book::BookFault;
use site_types::Answer;
use std::alloc::AllocError;

// Why a request isn't carried out: what it is answered, or that there was no memory to say so.
#[derive(Debug, Drop)]
pub(crate) enum Refusal {
    Answered(Answer),
    NoMemory,
}

impl From<NoMemory> for Refusal {
    ghost from_gives = { λ _ r. r ≡ variant.NoMemory };

    fn from(_: NoMemory) -> Refusal {
        Refusal::NoMemory
    }
}

impl From<BookFault> for Refusal {
    ghost from_gives = { λ fault r. r ≡ refusal_by fault };

    fn from(fault: BookFault) -> Refusal {
        match fault {
            BookFault::Exists(name) => Refusal::Answered(Answer::Exists { name }),
            BookFault::Unknown(name) => Refusal::Answered(Answer::Unknown { name }),
            BookFault::InUse { name, user } => Refusal::Answered(Answer::InUse { name, user }),
            BookFault::TooMany { kind, count, limit } => {
                Refusal::Answered(Answer::TooMany { kind, count, limit })
            }
            BookFault::Rule(rule) => Refusal::Answered(Answer::BadLifecycle { rule }),
            BookFault::NoMemory => Refusal::NoMemory,
        }
    }
}

// What is refused changes nothing.
pub(crate) fn refused<'a>(refusal: Refusal) -> Result<Decision<'a>, NoMemory>
    ensures answer { IfOk result (λ d. refusal ≡ variant.Answered d.answer) }
    ensures change { IfOk result (λ d. d.change ≡ change.Nothing) }
{
    match refusal {
        Refusal::Answered(answer) => Ok(Decision {
            answer,
            change: Change::Nothing,
        }),
        Refusal::NoMemory => Err(AllocError),
    }
}
