use std::alloc::Global;
use vault_disk::{
    Clock, Failed, Machine, MemoryClock, MemoryMachine, MemorySource, NoMemory, Source,
    StandardSource, Vault, read_whole,
};

fn reads_as<V: Vault>(alloc: Global, vault: &mut V, file: u32, wanted: &[u8]) -> bool {
    match read_whole(alloc, vault, file) {
        Ok(bytes) => bytes.as_slice() == wanted,
        Err(_) => false,
    }
}

// That a call whose number is listed fails is said by no clause.
#[test]
fn listed_calls_fail_and_later_ones_go_on(rt: HostRuntime) -> Result<(), NoMemory> {
    let mut machine = MemoryMachine::new(rt.alloc(), &[2, 4])?;
    assert_eq!(rt; machine.write_at(0, 1, b"ab"), Ok(()));
    assert_eq!(rt; machine.sync(0), Err(Failed));
    assert_eq!(rt; machine.cut(0, 2), Ok(()));
    assert_eq!(rt; machine.send(b"x"), Err(Failed));
    assert_eq!(rt; machine.send(b"hi"), Ok(()));
    let calls = machine.calls();
    let mut left = machine.stopped(calls, 1)?;
    assert!(rt; reads_as(rt.alloc(), &mut &mut left, 0, b"\0a"));
    let mut held = MemoryMachine::with_file(rt.alloc(), 7, b"kept")?;
    assert!(rt; reads_as(rt.alloc(), &mut held, 7, b"kept"));
    let mut source = MemorySource::new(rt.alloc(), b"abc", &[1])?;
    assert_eq!(rt; source.read(&mut [0u8; 2]), Err(Failed));
    assert_eq!(rt; source.read(&mut [0u8; 2]), Ok(2));
    let mut clock = MemoryClock::new(rt.alloc(), &[5], &[1])?;
    assert_eq!(rt; clock.now(), Err(Failed));
    assert_eq!(rt; clock.now(), Ok(5));
    Ok(())
}

// No clause says what a reader's source gives.
#[test]
fn a_reader_gives_its_bytes(rt: HostRuntime) {
    let mut buffer = [0u8; 2];
    let mut reader = StandardSource::new(b"xyz".as_slice());
    assert_eq!(rt; reader.read(&mut buffer), Ok(2));
    assert_eq!(rt; reader.read(&mut buffer), Ok(1));
    assert_eq!(rt; &buffer, b"zy");
}
