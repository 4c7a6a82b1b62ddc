use desk_model::Site;
use desk_rules::due_backups;
use policy_book::{Book, BookFault};
use schedule_windows::Zone;
use site_types::{Kind, Name, NoMemory, Request, Windows};
use std::alloc::Global;
use std::process::Abort;

fn name(rt: &(impl Abort + Alloc<A = Global>), text: &[u8]) -> Result<Name, NoMemory> {
    Ok(Name::new(rt.alloc(), text)?.expect(rt, "a name"))
}

// Alice is listed under the policy `adhoc`, which has a daily schedule that is always open.
fn apply_all(rt: &(impl Abort + Alloc<A = Global>), book: &mut Book) -> Result<(), BookFault> {
    let added = Request::ClientAdd {
        name: name(rt, b"alice")?,
    };
    let listed = Request::PolicyClientAdd {
        policy: name(rt, b"adhoc")?,
        client: name(rt, b"alice")?,
    };
    let scheduled = Request::ScheduleAdd {
        policy: name(rt, b"adhoc")?,
        schedule: name(rt, b"daily")?,
        kind: Kind::Full,
        frequency: Some(86_400),
        calendar: None,
        windows: Windows::Always,
    };
    book.apply(rt.alloc(), &added)?;
    book.apply(rt.alloc(), &listed)?;
    book.apply(rt.alloc(), &scheduled)
}

#[test]
fn a_client_without_images_is_due(rt: HostRuntime) -> Result<(), BookFault> {
    let mut site = Site {
        book: Book::new(rt.alloc())?,
        zone: Zone::fixed(0).expect(&rt, "a zone"),
    };
    apply_all(&rt, &mut site.book)?;
    let due = due_backups(rt.alloc(), &site, &[], 1_800_000_000)?;
    assert_eq!(rt; due.len(), 1);
    Ok(())
}
