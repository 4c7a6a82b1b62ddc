// The grammar of paths, and their order.
ghost use Rattle.std.specs.Prelude.{◌≡◌};
ghost use Rattle.std.specs.List.{list_all};
ghost use Rattle.image_kinds.specs.Paths.{is_path_length, is_path_byte, begins_with_slash, is_path, is_before, follows};

pub fn is_path_length(count: usize) -> bool
    ensures { result ≡ is_path_length count }
{
    1 <= count && count <= 1024
}

fn is_path_byte(byte: u8) -> bool
    ensures { result ≡ is_path_byte byte }
{
    byte != 0 && byte != b'\n'
}

pub fn begins_with_slash(path: &[u8]) -> bool
    ensures { result ≡ begins_with_slash path.now }
{
    matches!(path, [b'/', ..])
}

fn has_path_bytes_alone(path: &[u8]) -> bool
    ensures { result ≡ list_all is_path_byte path.now }
{
    path.iter().all(|byte| is_path_byte(*byte))
}

fn is_path(path: &[u8]) -> bool
    ensures { result ≡ is_path path.now }
{
    is_path_length(path.len()) && begins_with_slash(path) && has_path_bytes_alone(path)
}

// Whether a path stands before another in the order of bytes.
fn is_before(path: &[u8], other: &[u8]) -> bool
    ensures { result ≡ is_before path.now other.now }
{
    path.cmp(other).is_lt()
}

// Whether these bytes are a path that stands behind another.
pub fn follows(last: &[u8], path: &[u8]) -> bool
    ensures { result ≡ follows last.now path.now }
{
    is_path(path) && is_before(last, path)
}
