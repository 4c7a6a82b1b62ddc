use site_types::NoMemory;

// A word is shown up to so many bytes.
const LONGEST: usize = 80;

/// Appends names as a person lists them, each with `sign` behind it, and the last two joined by `joint`.
pub fn push_list(
    out: &mut String,
    names: &[&str],
    sign: &str,
    joint: &str,
) -> Result<(), NoMemory> {
    let last = names.len().saturating_sub(1);
    for (at, name) in names.iter().enumerate() {
        if at > 0 {
            out.push_str(if at == last { joint } else { ", " })?;
        }
        out.push_str(name)?;
        out.push_str(sign)?;
    }
    Ok(())
}

/// Appends a word so that it stays on its line: what isn't printed is shown by its number.
pub fn push_shown(out: &mut String, word: &[u8]) -> Result<(), NoMemory> {
    if word.is_empty() {
        return out.push_str("''");
    }
    for byte in word.iter().take(LONGEST) {
        match *byte {
            printed @ b'!'..=b'~' => out.push(char::from(printed))?,
            other => out.push_str(format!(in *out.allocator(); "\\x{other:02X}")?.as_str())?,
        }
    }
    if word.len() > LONGEST {
        out.push_str("..")?;
    }
    Ok(())
}
