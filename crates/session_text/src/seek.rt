// The search for the next line.
ghost use Rattle.std.specs.Prelude.{◌≡◌, ◌<◌, ◌++◌, [], length};
ghost use Rattle.vault_disk.specs.Input.{IsSameInput};
ghost use Rattle.vault_disk.specs.Steps.{Rose};
ghost use Rattle.session_text.specs.Reads.{IsSought};

use crate::ahead::Ahead;
use crate::line::{LINE_LIMIT, find_line_end};
use vault_disk::{ReadFault, Source};

// How a search for a line ended.
#[derive(Drop)]
pub(crate) enum Sought {
    // A line stands in what was read ahead, up to its line feed here.
    Line { end: usize },
    TooLong,
    // The source ended, and what is left is no whole line.
    Ended,
    // A read failed.
    Failed,
    NoMemory,
}

pub(crate) fn seek_line<S: Source>(ahead: &mut Ahead, source: &mut S, block: &mut [u8]) -> Sought
    requires { 0 < length block.old }
    ensures sought { IsSought result ahead.new }
    ensures kept { (S.input source.old).tells → ahead.new ++ (S.input source.new).left ≡ ahead.old ++ (S.input source.old).left }
    ensures ended { (S.input source.old).tells → result ≡ Sought.Ended → (S.input source.new).left ≡ [] }
    ensures same { IsSameInput (S.input source.old) (S.input source.new) }
    ensures failed { result ≡ Sought.Failed → Rose (S.input source.old).faults (S.input source.new).faults }
{
    loop {
        if let Some(end) = find_line_end(ahead.bytes()) {
            return Sought::Line { end };
        }
        if ahead.bytes().len() > LINE_LIMIT {
            return Sought::TooLong;
        }
        match ahead.read_on(source, block) {
            Ok(0) => return Sought::Ended,
            Ok(_) => {}
            Err(ReadFault::Failed) => return Sought::Failed,
            Err(ReadFault::NoMemory) => return Sought::NoMemory,
        }
    }
}
