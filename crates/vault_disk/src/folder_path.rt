// The folders above a folder, by its path.
use std::alloc::{AllocError, Global};

// A folder, and the one above it.
type Below<'a> = (&'a str, &'a str);

// The folders on the way of a path, from the top on, and its own.
pub(crate) fn folders_of(alloc: Global, path: &str) -> Result<Vec<Below<'_>>, AllocError> {
    let mut folders = Vec::new(alloc);
    for end in 1..path.len() + 1 {
        let is_whole = end == path.len() || path.as_bytes()[end] == b'/';
        if let (Some(folder), true) = (path.get(..end), is_whole) {
            let above = top_or_last(&folders, path);
            folders.push((folder, above))?;
        }
    }
    Ok(folders)
}

// The folder that was found last, and where none was, that in which the path begins.
fn top_or_last<'a>(folders: &[Below<'a>], path: &str) -> &'a str {
    match folders.last() {
        Some((folder, _)) => folder,
        None if path.starts_with('/') => "/",
        None => ".",
    }
}
