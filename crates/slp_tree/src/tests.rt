ghost use Rattle.std.specs.Prelude.{◌≡◌, length, sum_by};
ghost use Rattle.std.specs.Bool.{OnTrue};

use crate::{Lifecycles, NoMemory, Slp, due_ops};
use site_types::{
    BackupId, Base, ImageRecord, Kind, ListOf, Name, OpState, Operation, Retention, Windows,
};
use std::alloc::Global;
use std::process::Abort;

fn name(rt: &(impl Abort + Alloc<A = Global>), text: &[u8]) -> Result<Name, NoMemory> {
    Ok(Name::new(rt.alloc(), text)?.expect(rt, "a name"))
}

fn operation(
    rt: &(impl Abort + Alloc<A = Global>),
    backup: bool,
    source: u8,
) -> Result<Operation, NoMemory> {
    Ok(Operation {
        backup,
        source,
        unit: name(rt, b"disk0")?,
        retention: Retention::Fixed(60),
        windows: Windows::Always,
    })
}

// A backup, a copy of it, and a copy of that one.
fn tree(rt: &(impl Abort + Alloc<A = Global>)) -> Result<Slp, NoMemory> {
    let operations = vec![in rt.alloc();
        operation(rt, true, 0)?,
        operation(rt, false, 0)?,
        operation(rt, false, 1)?,
    ]?;
    let units = vec![in rt.alloc(); name(rt, b"disk0")?]?;
    match Slp::new(rt.alloc(), 7, operations, &units) {
        Ok(slp) => Ok(slp),
        Err(_) => panic!(rt; "no tree"),
    }
}

// An image of which two operations are complete and one waits.
fn image(rt: &(impl Abort + Alloc<A = Global>), time: u64) -> Result<ImageRecord, NoMemory> {
    let states = vec![in rt.alloc(); OpState::Complete, OpState::Complete, OpState::Waiting]?;
    Ok(ImageRecord {
        id: BackupId {
            client: name(rt, b"c")?,
            time,
        },
        policy: name(rt, b"p")?,
        schedule: name(rt, b"s")?,
        kind: Kind::Full,
        base: Base::None,
        lifecycle: name(rt, b"m")?,
        version: 1,
        length: 1,
        states: ListOf::from_vec(states),
        copies: ListOf::new(rt.alloc()),
        primary: 1,
        active: true,
    })
}

// There are as many windows as the images have states.
fn has_a_window_each(images: &[ImageRecord], windows: &[bool]) -> bool
    ensures { OnTrue result (sum_by (λ image. length image.states) images.now ≡ length windows.now) }
{
    let mut left = windows.len();
    for image in images {
        let count = image.states.as_slice().len();
        if count > left {
            return false;
        }
        left -= count;
    }
    left == 0
}

#[test]
fn the_older_of_two_images_is_due_first(rt: HostRuntime) -> Result<(), NoMemory> {
    let mut lifecycles = Lifecycles::new(rt.alloc());
    let m = name(&rt, b"m")?;
    assert!(rt; lifecycles.names() < 1000);
    assert!(rt; lifecycles.latest(&m).is_none());
    assert_eq!(rt; lifecycles.add(rt.alloc(), &m, tree(&rt)?)?, 1);
    let slp = lifecycles.find(&m, 1).expect(&rt, "a version");
    assert_eq!(rt; slp.children(rt.alloc(), 1)?.as_slice(), [2u8].as_slice());
    let images = vec![in rt.alloc(); image(&rt, 9)?, image(&rt, 8)?]?;
    let windows = [true; 6];
    assert!(rt; has_a_window_each(&images, &windows));
    let due = due_ops(rt.alloc(), &images, &lifecycles, &windows)?;
    assert_eq!(rt; due.len(), 2);
    for (due, time) in due.iter().zip([8u64, 9]) {
        assert_eq!(rt; (due.id.time, due.op), (time, 2));
    }
    Ok(())
}
