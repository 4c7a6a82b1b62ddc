// The payload of a single request: the source to its end.
ghost use Rattle.std.specs.Prelude.{◌≡◌, ◌<◌, [], length};
ghost use Rattle.vault_disk.specs.Input.{IsSameInput};
ghost use Rattle.vault_disk.specs.Steps.{Rose};
ghost use Rattle.site_types.specs.Limits.{payload_limit};
ghost use Rattle.bp_cli.specs.Payload.{IsTaken, IsTakenFor, IsShort};

use site_types::{PAYLOAD_LIMIT, Text};
use std::alloc::Global;
use vault_disk::{Source, zeros};

const MOST: usize = PAYLOAD_LIMIT as usize;

const BLOCK: usize = 65_536;

/// What became of a payload.
#[derive(Drop)]
pub enum Taken {
    Whole(Text),
    /// There is more than a payload may have.
    TooLong,
    /// A read failed.
    Failed,
    NoMemory,
}

fn take_blocks<S: Source>(source: &mut S, bytes: Vec<u8>, block: &mut [u8]) -> Taken
    requires room { 0 < length block.old }
    requires new { bytes.items ≡ [] }
    ensures taken { (S.input source.old).tells → IsTaken (S.input source.old).left result (S.input source.new).left }
    ensures short { IsShort result }
    ensures same { IsSameInput (S.input source.old) (S.input source.new) }
    ensures failed { result ≡ Taken.Failed → Rose (S.input source.old).faults (S.input source.new).faults }
{
    let mut bytes = bytes;
    loop {
        let Ok(count) = source.read(block) else {
            return Taken::Failed;
        };
        if count == 0 {
            return Taken::Whole(Text::from_vec(bytes));
        }
        if count > MOST - bytes.len() {
            return Taken::TooLong;
        }
        if bytes.extend_from_slice(&block[..count]).is_err() {
            return Taken::NoMemory;
        }
    }
}

/// Takes all that is left of a source.
pub fn take_payload<S: Source>(alloc: Global, source: &mut S) -> Taken
    ensures taken { (S.input source.old).tells → IsTaken (S.input source.old).left result (S.input source.new).left }
    ensures short { IsShort result }
    ensures same { IsSameInput (S.input source.old) (S.input source.new) }
    ensures failed { result ≡ Taken.Failed → Rose (S.input source.old).faults (S.input source.new).faults }
{
    match zeros(alloc, BLOCK) {
        Ok(mut block) => take_blocks(source, Vec::new(alloc), &mut block),
        Err(_) => Taken::NoMemory,
    }
}

/// Takes the payload of a request from a source; for one that takes none the source isn't read.
pub fn take_given<S: Source>(alloc: Global, takes: bool, source: &mut S) -> Taken
    ensures taken { IsTakenFor takes (S.input source.old) result (S.input source.new) }
    ensures short { IsShort result }
    ensures same { IsSameInput (S.input source.old) (S.input source.new) }
    ensures failed { result ≡ Taken.Failed → Rose (S.input source.old).faults (S.input source.new).faults }
{
    if takes {
        return take_payload(alloc, source);
    }
    Taken::Whole(Text::from_vec(Vec::new(alloc)))
}
