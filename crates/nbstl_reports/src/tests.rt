use crate::{
    NoMemory, StoredSize, due_lines, image_lines, media_lines, operation_lines, stats_lines,
    unit_lines,
};
use image_catalogue::Catalogue;
use site_types::{
    BackupId, Base, CopyRecord, DueBackup, Expiry, ImageRecord, Kind, ListOf, Name, OpState,
    Operation, Retention, Unit, Windows,
};
use slp_tree::{DueOp, Lifecycles, Slp};
use std::alloc::Global;
use std::process::Abort;

fn name(rt: &(impl Abort + Alloc<A = Global>), text: &[u8]) -> Result<Name, NoMemory> {
    Ok(Name::new(rt.alloc(), text)?.expect(rt, "a name"))
}

fn copy(
    rt: &(impl Abort + Alloc<A = Global>),
    number: u8,
    completed: u64,
) -> Result<CopyRecord, NoMemory> {
    Ok(CopyRecord {
        number,
        unit: name(rt, b"disk0")?,
        completed,
        expiry: Expiry::Rule,
    })
}

// An image of 17 bytes with two copies on `disk0`, of which the second was complete before the first.
fn image(rt: &(impl Abort + Alloc<A = Global>), client: &[u8]) -> Result<ImageRecord, NoMemory> {
    let copies = vec![in rt.alloc(); copy(rt, 1, 9)?, copy(rt, 2, 5)?]?;
    Ok(ImageRecord {
        id: BackupId {
            client: name(rt, client)?,
            time: 10,
        },
        policy: name(rt, b"office")?,
        schedule: name(rt, b"weekly")?,
        kind: Kind::Full,
        base: Base::None,
        lifecycle: name(rt, b"gold")?,
        version: 1,
        length: 17,
        states: ListOf::from_vec(vec![in rt.alloc(); OpState::Complete, OpState::Waiting]?),
        copies: ListOf::from_vec(copies),
        primary: 1,
        active: true,
    })
}

fn unit(rt: &(impl Abort + Alloc<A = Global>)) -> Result<Unit, NoMemory> {
    Ok(Unit {
        name: name(rt, b"disk0")?,
        number: 0,
        capacity: 100,
        segment: 16,
        fragment: 1,
        slots: 8,
        high: 80,
        low: 40,
    })
}

fn operation(rt: &(impl Abort + Alloc<A = Global>), backup: bool) -> Result<Operation, NoMemory> {
    Ok(Operation {
        backup,
        source: 0,
        unit: name(rt, b"disk0")?,
        retention: Retention::Infinite,
        windows: Windows::Always,
    })
}

fn lifecycles(rt: &(impl Abort + Alloc<A = Global>)) -> Result<Lifecycles, NoMemory> {
    let operations = vec![in rt.alloc(); operation(rt, true)?, operation(rt, false)?]?;
    let units = vec![in rt.alloc(); name(rt, b"disk0")?]?;
    let mut lifecycles = Lifecycles::new(rt.alloc());
    let gold = name(rt, b"gold")?;
    assert!(rt; lifecycles.names() < 1000);
    assert!(rt; lifecycles.latest(&gold).is_none());
    match Slp::new(rt.alloc(), 0, operations, &units) {
        Ok(slp) => lifecycles.add(rt.alloc(), &gold, slp)?,
        Err(_) => panic!(rt; "no tree"),
    };
    Ok(lifecycles)
}

fn catalogue(rt: &(impl Abort + Alloc<A = Global>)) -> Result<Catalogue, NoMemory> {
    let mut catalogue = Catalogue::new(rt.alloc());
    for client in [b"b", b"a"] {
        let image = image(rt, client)?;
        assert!(rt; catalogue.find(&image.id).is_none());
        catalogue.add_image(rt.alloc(), image)?;
    }
    Ok(catalogue)
}

#[test]
fn images_and_their_parts_are_listed(rt: HostRuntime) -> Result<(), NoMemory> {
    let images = catalogue(&rt)?;
    let mut out = Vec::new(rt.alloc());
    image_lines(rt.alloc(), images.iter(), &mut out)?;
    let client = name(&rt, b"b")?;
    let of_client = images.iter().filter(|image| image.id.client == client);
    image_lines(rt.alloc(), of_client, &mut out)?;
    media_lines(rt.alloc(), &image(&rt, b"a")?, &[unit(&rt)?], &mut out)?;
    operation_lines(rt.alloc(), images.iter(), &lifecycles(&rt)?, &mut out)?;
    let expected =
        b"a_10 office weekly full gold 1 17 1 1,2\nb_10 office weekly full gold 1 17 1 1,2\nb_10 office weekly full gold 1 17 1 1,2\na_10 1 1 disk0 16\na_10 1 2 disk0 1\na_10 2 1 disk0 16\na_10 2 2 disk0 1\na_10 0 complete disk0 active\na_10 1 waiting disk0 active\nb_10 0 complete disk0 active\nb_10 1 waiting disk0 active\n";
    assert_eq!(rt; out.as_slice(), expected.as_slice());
    Ok(())
}

#[test]
fn units_and_what_is_due_are_listed(rt: HostRuntime) -> Result<(), NoMemory> {
    let images = catalogue(&rt)?;
    let units = [unit(&rt)?];
    let stored = [StoredSize {
        segments: 2,
        bytes: 17,
    }];
    let backup = DueBackup {
        policy: name(&rt, b"office")?,
        client: name(&rt, b"a")?,
        schedule: name(&rt, b"weekly")?,
    };
    let copy = DueOp {
        id: image(&rt, b"a")?.id,
        op: 1,
    };
    let mut out = Vec::new(rt.alloc());
    unit_lines(rt.alloc(), &units, &images, &mut out)?;
    stats_lines(rt.alloc(), &units, &images, &stored, &mut out)?;
    due_lines(rt.alloc(), &[backup], &[copy], &mut out)?;
    let expected =
        b"disk0 68 100 80 40\ndisk0 2 17 4 68\nbackup office a weekly\nduplicate a_10 1\n";
    assert_eq!(rt; out.as_slice(), expected.as_slice());
    Ok(())
}
