use bp_cli::run;
use site_types::{NoMemory, Text};
use std::alloc::Global;
use vault_disk::{MemoryClock, MemoryMachine, MemorySource};

// What a run is given: its words, the text of its source, and which call of the source and of the clock fails, 0 for none.
#[derive(Clone, Copy)]
struct Trial {
    words: &'static str,
    source: &'static str,
    failed_read: u64,
    failed_tick: u64,
}

fn without_faults(words: &'static str, source: &'static str) -> Trial {
    Trial {
        words,
        source,
        failed_read: 0,
        failed_tick: 0,
    }
}

fn status_of(alloc: Global, machine: &mut MemoryMachine, trial: &Trial) -> Result<u8, NoMemory> {
    let mut words = Vec::new(alloc);
    for word in trial.words.split(' ') {
        words.push(Text::new(alloc, word.as_bytes())?)?;
    }
    let mut source = MemorySource::new(alloc, trial.source.as_bytes(), &[trial.failed_read])?;
    let mut clock = MemoryClock::new(alloc, &[7000], &[trial.failed_tick])?;
    Ok(run(alloc, &words, machine, &mut source, &mut clock))
}

#[test]
fn a_backup_is_restored(rt: HostRuntime) -> Result<(), NoMemory> {
    let mut machine = MemoryMachine::new(rt.alloc(), &[])?;
    let backup = without_faults("bpbackup client=alpha", "hello");
    let restore = without_faults("@7001 bprestore id=alpha_7000", "left");
    assert_eq!(rt; status_of(rt.alloc(), &mut machine, &backup)?, 0);
    assert_eq!(rt; machine.sent(), b"alpha_7000\n".as_slice());
    assert_eq!(rt; status_of(rt.alloc(), &mut machine, &restore)?, 0);
    assert_eq!(rt; machine.sent(), b"alpha_7000\nhello".as_slice());
    Ok(())
}

#[test]
fn a_session_backs_up_and_restores(rt: HostRuntime) -> Result<(), NoMemory> {
    let mut machine = MemoryMachine::new(rt.alloc(), &[])?;
    let session = without_faults(
        "session",
        "bpbackup client=alpha payload=5\nhellobprestore id=alpha_7000\n",
    );
    assert_eq!(rt; status_of(rt.alloc(), &mut machine, &session)?, 0);
    assert_eq!(rt; machine.sent(), b"0 11\nalpha_7000\n0 5\nhello".as_slice());
    Ok(())
}

#[test]
fn requests_of_the_site_are_done(rt: HostRuntime) -> Result<(), NoMemory> {
    let mut machine = MemoryMachine::new(rt.alloc(), &[])?;
    let load = without_faults("bpload", "[[client]]\nname = \"a\"\n");
    let again = without_faults("client add name=a", "");
    let bad = without_faults("client add name=a/b", "");
    assert_eq!(rt; status_of(rt.alloc(), &mut machine, &load)?, 0);
    assert_eq!(rt; status_of(rt.alloc(), &mut machine, &again)?, 3);
    assert_eq!(rt; status_of(rt.alloc(), &mut machine, &bad)?, 2);
    assert_eq!(rt;
        machine.sent(),
        b"1\na exists\nbad request at 2\n".as_slice()
    );
    Ok(())
}

#[test]
fn a_vault_that_is_none_is_told(rt: HostRuntime) -> Result<(), NoMemory> {
    let mut machine = MemoryMachine::with_file(rt.alloc(), 0, &[0u8; 18])?;
    let session = without_faults("session", "");
    assert_eq!(rt; status_of(rt.alloc(), &mut machine, &session)?, 22);
    assert_eq!(rt; machine.sent(), b"22 17\nnot a vault at 0\n".as_slice());
    Ok(())
}

#[test]
fn a_machine_that_fails_is_answered(rt: HostRuntime) -> Result<(), NoMemory> {
    let mut machine = MemoryMachine::new(rt.alloc(), &[1])?;
    let backup = without_faults("bpbackup client=alpha", "hello");
    assert_eq!(rt; status_of(rt.alloc(), &mut machine, &backup)?, 18);
    assert_eq!(rt; machine.sent(), b"disk fault\n".as_slice());
    Ok(())
}

#[test]
fn a_source_that_fails_is_answered(rt: HostRuntime) -> Result<(), NoMemory> {
    let mut machine = MemoryMachine::new(rt.alloc(), &[])?;
    let session = Trial {
        words: "session",
        source: "bpbackup client=alpha\n",
        failed_read: 2,
        failed_tick: 0,
    };
    assert_eq!(rt; status_of(rt.alloc(), &mut machine, &session)?, 19);
    assert_eq!(rt;
        machine.sent(),
        b"0 11\nalpha_7000\n19 11\nread fault\n".as_slice()
    );
    Ok(())
}

#[test]
fn a_clock_that_fails_is_answered(rt: HostRuntime) -> Result<(), NoMemory> {
    let mut machine = MemoryMachine::new(rt.alloc(), &[])?;
    let backup = Trial {
        words: "bpbackup client=alpha",
        source: "hello",
        failed_read: 0,
        failed_tick: 1,
    };
    assert_eq!(rt; status_of(rt.alloc(), &mut machine, &backup)?, 21);
    assert_eq!(rt; machine.sent(), b"clock fault\n".as_slice());
    Ok(())
}
