ghost use Rattle.std.specs.Prelude.{◌≤◌, length};
ghost use Rattle.vault_disk.specs.Steps.{Reads};

// Copies what stands from this place on into the slice, as much of it as there is and as fits.
pub(crate) fn copy_from(bytes: &[u8], at: usize, into: &mut [u8]) -> usize
    ensures bound { result ≤ length into.new }
    ensures bytes { Reads bytes.now at result into.new }
{
    if at >= bytes.len() {
        return 0;
    }
    let rest = &bytes[at..];
    let count = rest.len().min(into.len());
    into[..count].copy_from_slice(&rest[..count]);
    count
}
