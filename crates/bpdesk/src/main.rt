//! The desk of a backup site: a folder, the words of a request and a payload in, a reply and a status out.
#![tactic(auto)]

use site_types::Answer;
use std::env;
use std::fs::File;
use std::io::{ErrorKind, IsTerminal};
use std::process::ExitCode;
use vault_disk::{FolderMachine, StandardSource, SystemClock, ToldInput};

const BAD_REQUEST: u8 = 2;

fn main(rt: HostRuntime) -> ExitCode {
    // A standard stream that the caller closed leaves its number to the next file that is opened, which must be none of the vault's.
    let _held = [
        File::open(&rt, "/"),
        File::open(&rt, "/"),
        File::open(&rt, "/"),
    ];
    let mut arguments = match env::args(&rt) {
        Ok(arguments) => arguments,
        Err(fault) if fault.kind() == ErrorKind::OutOfMemory => {
            let _ = eprintln!(rt; "bpdesk: no memory for the words");
            return ExitCode::from(Answer::OutOfMemory.number());
        }
        Err(_) => {
            let _ = eprintln!(rt; "bpdesk: a word is not UTF-8");
            return ExitCode::from(BAD_REQUEST);
        }
    };
    let _program = arguments.next();
    let Some(folder) = arguments.next() else {
        shell_texts::tell_usage(&rt, "a folder and a request are missing");
        return ExitCode::from(BAD_REQUEST);
    };
    let path = String::from_str(rt.alloc(), folder.as_str());
    let (Ok(path), Ok(words)) = (path, shell_texts::texts(rt.alloc(), arguments)) else {
        return ExitCode::from(Answer::OutOfMemory.number());
    };
    let reader = rt.reader();
    let is_awaited = reader.is_terminal() && !shell_texts::is_session(&words);
    let is_kept = shell_texts::takes_site_file(&words);
    let mut input = ToldInput::new(&rt, reader, is_awaited, is_kept);
    let mut machine = FolderMachine::new(&rt, path);
    let mut source = StandardSource::new(&mut input);
    let mut clock = SystemClock::new(&rt);
    let status = bp_cli::run(rt.alloc(), &words, &mut machine, &mut source, &mut clock);
    shell_texts::tell(&rt, status, folder.as_str(), &words, input.kept());
    ExitCode::from(status)
}
