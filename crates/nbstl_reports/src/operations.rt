ghost use Rattle.std.specs.Prelude.{◌≡◌, ◌++◌, map, slice_get, OnOk, OnErr, Some};
ghost use Rattle.std.specs.Iterator.{IsFinite};
ghost use Rattle.std.specs.Iterator.Runs.{WholeRun};
ghost use Rattle.nbstl_reports.specs.Lines.{line, lines};
ghost use Rattle.nbstl_reports.specs.ImageLines.{listed};
ghost use Rattle.nbstl_reports.specs.OperationLines.{flag_text, operation_fields, operation_lines, operation_rows, operations_of, state_text};
ghost use Rattle.nbstl_reports.specs.Fields.{StartsWith};

use crate::NoMemory;
use crate::line::{Field, push_line, whole_or_none};
use site_types::{ImageRecord, OpState, Operation};
use slp_tree::{Lifecycles, Slp};
use std::alloc::Global;

/// The operations of images: a line `ID OP STATE UNIT FLAG` for each operation of each of them, in their order and by the
/// operation's index. FLAG says whether the image is active. An image's operations are those of the version of its lifecycle under
/// which it was made; where that isn't there it has no line.
pub fn operation_lines<'a, I: Iterator<Item = &'a ImageRecord>>(
    _alloc: Global,
    images: I,
    lifecycles: &Lifecycles,
    out: &mut Vec<u8>,
) -> Result<(), NoMemory>
    requires can { I.can_next images }
    requires ends { IsFinite (I.remaining images) }
    ensures written { OnOk result (WholeRun I.next_gives images (λ run. out.new.items ≡ out.old.items ++ operation_lines lifecycles.now (listed run.items))) }
    ensures unchanged { OnErr result (out.new.items ≡ out.old.items) }
{
    let before = out.len();
    let written = push_operations(images, lifecycles, out);
    whole_or_none(out, before, written)
}

fn push_operations<'a, I: Iterator<Item = &'a ImageRecord>>(
    images: I,
    lifecycles: &Lifecycles,
    out: &mut Vec<u8>,
) -> Result<(), NoMemory>
    requires can { I.can_next images }
    requires ends { IsFinite (I.remaining images) }
    ensures written { OnOk result (WholeRun I.next_gives images (λ run. out.new.items ≡ out.old.items ++ operation_lines lifecycles.now (listed run.items))) }
    ensures begun { OnErr result (StartsWith out.old.items out.new.items) }
{
    for image in images {
        push_image(image, lifecycles, out)?;
    }
    Ok(())
}

fn push_image(
    image: &ImageRecord,
    lifecycles: &Lifecycles,
    out: &mut Vec<u8>,
) -> Result<(), NoMemory>
    ensures written { OnOk result (out.new.items ≡ out.old.items ++ lines (operation_rows lifecycles.now image.now)) }
    ensures begun { OnErr result (StartsWith out.old.items out.new.items) }
{
    match lifecycles.find(&image.lifecycle, image.version) {
        Some(version) => push_version(image, version, out),
        None => Ok(()),
    }
}

#[tactic(auto, using(crate::proofs::LineLemmas::left_ends, crate::proofs::LineLemmas::right_ends, crate::proofs::LineLemmas::right_past))]
fn push_version(image: &ImageRecord, version: &Slp, out: &mut Vec<u8>) -> Result<(), NoMemory>
    ensures written { OnOk result (out.new.items ≡ out.old.items ++ lines (map (operation_fields image.now) (operations_of image.now.states (Some version.now)))) }
    ensures begun { OnErr result (StartsWith out.old.items out.new.items) }
{
    for op in 0..version.count() {
        let Some(state) = state_of(image, op) else {
            return Ok(());
        };
        let Some(operation) = version.operation(op) else {
            return Ok(());
        };
        push_operation(image, op, state, operation, out)?;
    }
    Ok(())
}

fn state_of(image: &ImageRecord, op: u8) -> Option<OpState>
    ensures { result ≡ slice_get image.now.states op }
{
    image.states.as_slice().get(usize::from(op)).copied()
}

fn push_operation<'a>(
    image: &'a ImageRecord,
    op: u8,
    state: OpState,
    operation: &'a Operation,
    out: &mut Vec<u8>,
) -> Result<(), NoMemory>
    ensures written { OnOk result (out.new.items ≡ out.old.items ++ line (operation_fields image.now (op, (state, operation.now)))) }
    ensures begun { OnErr result (StartsWith out.old.items out.new.items) }
{
    let fields = [
        Field::Id(&image.id),
        Field::Number(u64::from(op)),
        Field::Text(state_text(state)),
        Field::Text(operation.unit.bytes()),
        Field::Text(flag_text(image.active)),
    ];
    push_line(out, &fields)
}

fn state_text(state: OpState) -> &'static [u8]
    ensures { result.now ≡ state_text state }
{
    match state {
        OpState::Waiting => b"waiting",
        OpState::Complete => b"complete",
        OpState::Cancelled => b"cancelled",
    }
}

fn flag_text(active: bool) -> &'static [u8]
    ensures { result.now ≡ flag_text active }
{
    if active { b"active" } else { b"inactive" }
}
