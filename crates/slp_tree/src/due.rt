ghost use Rattle.std.specs.Prelude.{◌≡◌, ◌++◌, length, map, sum_by, slice_get, slice_index_or, false, IfOk, OnOk, Some};
ghost use Rattle.std.specs.Option.{option_map_or};
ghost use Rattle.slp_tree.specs.Lifecycles.{version_named};
ghost use Rattle.slp_tree.specs.Due.{reads_complete, is_due, due_of, due_of_all, due_order, due_ops};
ghost use Rattle.slp_tree.specs.Sorting.{in_order};

use crate::slp::{completed, waits};
use crate::{Lifecycles, NoMemory, Slp};
use site_types::{BackupId, ImageRecord, OpState};
use std::alloc::Global;
use std::cmp::Ordering;

/// An operation of an image that is due.
#[derive(Debug, Drop)]
pub struct DueOp {
    pub id: BackupId,
    /// The operation's index.
    pub op: u8,
}

// A due operation, with the priority of its image's lifecycle version.
#[derive(Debug, Drop)]
struct Ranked {
    priority: u32,
    due: DueOp,
}

/// The operations of these images that are due: the image is active, the operation is waiting, its source operation is
/// complete, and its window is open. They are ordered by the priority of the image's lifecycle version, high first, then by
/// the image's time, its client and the operation's index. `zone_open` says, for each operation of each image in their
/// order, whether its window is open. An image keeps the version that it was made under; one whose version isn't there has
/// no due operations.
pub fn due_ops(
    alloc: Global,
    images: &[ImageRecord],
    lifecycles: &Lifecycles,
    zone_open: &[bool],
) -> Result<Vec<DueOp>, NoMemory>
    requires { sum_by (λ image. length image.states) images.now ≡ length zone_open.now }
    ensures { IfOk result (λ v. v.items ≡ due_ops images.now lifecycles.now zone_open.now) }
{
    let mut ranked = ranked_due(alloc, images, lifecycles, zone_open)?;
    sort(&mut ranked)?;
    unranked(alloc, ranked)
}

fn ranked_due(
    alloc: Global,
    images: &[ImageRecord],
    lifecycles: &Lifecycles,
    zone_open: &[bool],
) -> Result<Vec<Ranked>, NoMemory>
    requires { sum_by (λ image. length image.states) images.now ≡ length zone_open.now }
    ensures { IfOk result (λ v. v.items ≡ due_of_all images.now lifecycles.now zone_open.now) }
{
    let mut ranked = Vec::new(alloc);
    let mut later = zone_open;
    for image in images {
        let (open_windows, rest) = later.split_at(image.states.as_slice().len());
        push_image(alloc, image, lifecycles, open_windows, &mut ranked)?;
        later = rest;
    }
    Ok(ranked)
}

fn push_image(
    alloc: Global,
    image: &ImageRecord,
    lifecycles: &Lifecycles,
    open_windows: &[bool],
    ranked: &mut Vec<Ranked>,
) -> Result<(), NoMemory>
    ensures { OnOk result (ranked.new.items ≡ ranked.old.items ++ due_of image.now open_windows.now (version_named image.now.lifecycle image.now.version lifecycles.now)) }
{
    match lifecycles.find(&image.lifecycle, image.version) {
        Some(slp) => push_due(alloc, image, slp, open_windows, ranked),
        None => Ok(()),
    }
}

fn push_due(
    alloc: Global,
    image: &ImageRecord,
    slp: &Slp,
    open_windows: &[bool],
    ranked: &mut Vec<Ranked>,
) -> Result<(), NoMemory>
    ensures { OnOk result (ranked.new.items ≡ ranked.old.items ++ due_of image.now open_windows.now (Some slp.now)) }
{
    for op in 0..slp.count() {
        if is_due(image, slp, open_windows, op) {
            let id = BackupId {
                client: image.id.client.copy(alloc)?,
                time: image.id.time,
            };
            ranked.push(Ranked {
                priority: slp.priority(),
                due: DueOp { id, op },
            })?;
        }
    }
    Ok(())
}

fn is_due(image: &ImageRecord, slp: &Slp, open_windows: &[bool], op: u8) -> bool
    ensures { result ≡ is_due image.now slp.now.operations open_windows.now op }
{
    let states = image.states.as_slice();
    image.active
        && waits(states, usize::from(op))
        && reads_complete(states, slp, op)
        && is_open(open_windows, op)
}

fn reads_complete(states: &[OpState], slp: &Slp, op: u8) -> bool
    ensures { result ≡ option_map_or (reads_complete states.now) (slice_get slp.now.operations op) false }
{
    match slp.operation(op) {
        Some(operation) => !operation.backup && completed(states, usize::from(operation.source)),
        None => false,
    }
}

fn is_open(open_windows: &[bool], op: u8) -> bool
    ensures { result ≡ slice_index_or open_windows.now op false }
{
    match open_windows.get(usize::from(op)) {
        Some(is_open) => *is_open,
        None => false,
    }
}

// Which of two due operations comes first.
fn compare(a: &Ranked, b: &Ranked) -> Ordering
    ensures { result ≡ due_order a.now b.now }
{
    b.priority
        .cmp(&a.priority)
        .then_with(|| a.due.id.time.cmp(&b.due.id.time))
        .then_with(|| a.due.id.client.bytes().cmp(b.due.id.client.bytes()))
        .then_with(|| a.due.op.cmp(&b.due.op))
}

fn sort(ranked: &mut Vec<Ranked>) -> Result<(), NoMemory>
    ensures { OnOk result (ranked.new.items ≡ in_order due_order ranked.old.items) }
{
    ranked.sort_by(|a, b| compare(a, b))?;
    Ok(())
}

fn unranked(alloc: Global, ranked: Vec<Ranked>) -> Result<Vec<DueOp>, NoMemory>
    ensures { IfOk result (λ v. v.items ≡ map (λ r. r.due) ranked.items) }
{
    ranked.into_iter().map(|entry| entry.due).collect(alloc)
}
