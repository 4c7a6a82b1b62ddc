// What a single request is given: its payload from the source, and its moment.
ghost use Rattle.std.specs.Prelude.{◌≡◌, ◌≤◌, codes, IfOk, IfErr, OnErr};
ghost use Rattle.vault_disk.specs.Ticks.{IsSameClock};
ghost use Rattle.site_types.specs.Limits.{last_moment};
ghost use Rattle.bp_cli.specs.Gather.{Gathers, IsLimited, IsMoment, IsTooLongOr, IsUngathered, IsUntimed};

use crate::payload::{Taken, take_given};
use site_types::{Answer, NoMemory, PAYLOAD_LIMIT, Text};
use std::alloc::Global;
use vault_disk::{Clock, Failed, Source};

/// What a single request was given: its payload, and its moment in seconds since 1970-01-01T00:00:00Z.
#[derive(Drop)]
pub struct Inputs {
    pub payload: Text,
    pub moment: u64,
}

fn too_long_text(alloc: Global) -> Result<Text, NoMemory>
    ensures { IfOk result (λ t. t ≡ codes "bytes") }
{
    Ok(Text::from_vec(b"bytes".to_vec(alloc)?))
}

fn too_long(alloc: Global) -> Answer
    ensures { IsTooLongOr result }
{
    match too_long_text(alloc) {
        Ok(kind) => Answer::TooMany {
            kind,
            count: PAYLOAD_LIMIT + 1,
            limit: PAYLOAD_LIMIT,
        },
        Err(_) => Answer::OutOfMemory,
    }
}

/// The moment of a request: the one that its words name, or else one of the clock.
pub fn moment_at<C: Clock>(named: Option<u64>, clock: &mut C) -> Result<u64, Failed>
    requires limited { IsLimited named }
    ensures limit { IfOk result (λ m. m ≤ last_moment) }
    ensures moment { IfOk result (λ m. IsMoment named m (C.ticks clock.old) (C.ticks clock.new)) }
    ensures untimed { OnErr result (IsUntimed named (C.ticks clock.old) (C.ticks clock.new)) }
    ensures same { IsSameClock (C.ticks clock.old) (C.ticks clock.new) }
{
    match named {
        Some(moment) => Ok(moment),
        None => clock.now(),
    }
}

/// Takes the payload from a source, where the request takes one, and then finds the moment: the one that is named, or else that of
/// the clock.
pub fn gather<S: Source, C: Clock>(
    alloc: Global,
    takes: bool,
    named: Option<u64>,
    source: &mut S,
    clock: &mut C,
) -> Result<Inputs, Answer>
    requires limited { IsLimited named }
    ensures gathered { IfOk result (λ g. Gathers takes named (S.input source.old) (S.input source.new) (C.ticks clock.old) (C.ticks clock.new) g) }
    ensures refused { IfErr result (λ a. IsUngathered takes named (S.input source.old) (S.input source.new) (C.ticks clock.old) (C.ticks clock.new) a) }
{
    let payload = match take_given(alloc, takes, source) {
        Taken::Whole(payload) => payload,
        Taken::TooLong => return Err(too_long(alloc)),
        Taken::Failed => return Err(Answer::ReadFault),
        Taken::NoMemory => return Err(Answer::OutOfMemory),
    };
    let Ok(moment) = moment_at(named, clock) else {
        return Err(Answer::ClockFault);
    };
    Ok(Inputs { payload, moment })
}
