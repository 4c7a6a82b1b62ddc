ghost use Rattle.std.specs.Prelude.{◌≡◌, ◌+◌, false, nat_le, slice_get};
ghost use Rattle.std.specs.Option.{option_map_or};
ghost use Rattle.retention_rules.specs.Eligible.{index_of, is_past, is_expired, is_eligible, is_capacity, is_by_rule, is_capacity_managed};

use site_types::{CopyRecord, Expiry, ImageRecord, Retention};
use slp_tree::Slp;

/// Whether a copy of an image may go at a moment, in seconds since 1970-01-01T00:00:00Z: it is expired, at its own moment or by
/// the retention of the operation that made it, and no operation is waiting that reads it. `slp` is the version of the
/// lifecycle that the image keeps. It takes no memory.
pub fn eligible(slp: &Slp, image: &ImageRecord, copy: &CopyRecord, moment: u64) -> bool
    ensures { result ≡ is_eligible slp.now image.now copy.now moment }
{
    let op = index_of(copy);
    let expired = match slp.operation(op) {
        Some(operation) => is_expired(image, copy, moment, operation.retention),
        None => false,
    };
    expired && slp.needed(image.states.as_slice(), op).is_none()
}

// The index of the operation that made the copy, whose number is one more.
fn index_of(copy: &CopyRecord) -> u8
    ensures { result ≡ index_of copy.now }
{
    copy.number.saturating_sub(1)
}

fn is_expired(image: &ImageRecord, copy: &CopyRecord, moment: u64, retention: Retention) -> bool
    ensures { result ≡ is_expired image.now copy.now moment retention copy.now.expiry }
{
    match copy.expiry {
        Expiry::Rule => is_past(image, copy, moment, retention),
        Expiry::At(expiry) => expiry <= moment,
        Expiry::Never => false,
    }
}

fn is_past(image: &ImageRecord, copy: &CopyRecord, moment: u64, retention: Retention) -> bool
    ensures { result ≡ is_past image.now copy.now moment retention }
{
    match retention {
        Retention::Fixed(seconds) => is_over(image.id.time, seconds, moment),
        Retention::Infinite => false,
        Retention::AfterCopy => true,
        Retention::Capacity(seconds) => is_over(copy.completed, seconds, moment),
    }
}

// So many seconds from a start have gone by.
fn is_over(start: u64, seconds: u64, moment: u64) -> bool
    ensures { result ≡ nat_le (start + seconds) moment }
{
    start <= moment && seconds <= moment - start
}

/// Whether a copy goes only where its unit wants the room: by the capacity retention of the operation that made it.
pub(crate) fn capacity_managed(slp: &Slp, copy: &CopyRecord) -> bool
    ensures { result ≡ is_capacity_managed slp.now copy.now }
{
    is_by_rule(copy) && is_by_capacity(slp, copy)
}

fn is_by_rule(copy: &CopyRecord) -> bool
    ensures { result ≡ is_by_rule copy.now.expiry }
{
    matches!(copy.expiry, Expiry::Rule)
}

fn is_by_capacity(slp: &Slp, copy: &CopyRecord) -> bool
    ensures { result ≡ option_map_or (λ o. is_capacity o.retention) (slice_get slp.now.operations (index_of copy.now)) false }
{
    match slp.operation(index_of(copy)) {
        Some(operation) => matches!(operation.retention, Retention::Capacity(_)),
        None => false,
    }
}
