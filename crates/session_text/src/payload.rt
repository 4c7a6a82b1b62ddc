// Filling a payload from a source.
ghost use Rattle.std.specs.Prelude.{◌≡◌, ◌<◌, ◌≤◌, ◌++◌, [], length, vec_capacity};
ghost use Rattle.vault_disk.specs.Input.{IsSameInput};
ghost use Rattle.vault_disk.specs.Steps.{Rose};
ghost use Rattle.session_text.specs.Reads.{IsFilled};

use vault_disk::Source;

// What became of a payload.
#[derive(Drop)]
pub(crate) enum Filled {
    Whole,
    // The source ended inside it.
    Ended,
    // A read failed.
    Failed,
}

// Reads a payload on, up to its size, for which there is room.
pub(crate) fn fill<S: Source>(
    payload: &mut Vec<u8>,
    size: usize,
    source: &mut S,
    block: &mut [u8],
) -> Filled
    requires room { 0 < length block.old }
    requires reserved { size ≤ vec_capacity payload.old }
    requires short { length payload.old.items ≤ size }
    ensures filled { IsFilled result size payload.new.items }
    ensures kept { (S.input source.old).tells → payload.new.items ++ (S.input source.new).left ≡ payload.old.items ++ (S.input source.old).left }
    ensures grown { length payload.old.items ≤ length payload.new.items }
    ensures ended { (S.input source.old).tells → result ≡ Filled.Ended → (S.input source.new).left ≡ [] }
    ensures same { IsSameInput (S.input source.old) (S.input source.new) }
    ensures failed { result ≡ Filled.Failed → Rose (S.input source.old).faults (S.input source.new).faults }
{
    while payload.len() < size {
        let wanted = block.len().min(size - payload.len());
        let Ok(count) = source.read(&mut block[..wanted]) else {
            return Filled::Failed;
        };
        if count == 0 {
            return Filled::Ended;
        }
        if payload.extend_from_slice(&block[..count]).is_err() {
            unreachable!();
        }
    }
    Filled::Whole
}
