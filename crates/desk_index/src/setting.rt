// The requests that change the site, as records have them.
ghost use Rattle.std.specs.Prelude.{◌≡◌, true, IfOk, IfSome};
ghost use Rattle.std.specs.List.{slice_split};
ghost use Rattle.std.specs.Result.{result_ok};
ghost use Rattle.std.specs.Str.{bytes_eq};
ghost use Rattle.site_types.specs.Lines.{is_space, line_of, read_line, IsFormed};
ghost use Rattle.desk_model.specs.Settings.{is_setting};
ghost use Rattle.vault_ledger.specs.Fitting.{settled, settled_by};
ghost use Rattle.vault_ledger.specs.Ledger.{Ledger};
ghost use Rattle.desk_index.specs.Index.{IsIndexOf};
ghost use Rattle.desk_index.specs.Replays.{setting_of, IsSettled};

use crate::index::Index;
use site_types::{ByClass, NoMemory, Request, Text, WordFault};
use std::alloc::{AllocError, Global};

/// It changes the book or the zone.
pub fn is_setting(request: &Request) -> bool
    ensures { result ≡ is_setting request.now }
{
    matches!(request.by_class(), ByClass::SiteChange(_))
}

// The words of a line: the parts between its single spaces.
fn split_words(alloc: Global, line: &[u8]) -> Result<Vec<Text>, NoMemory>
    ensures { IfOk result (λ v. v.items ≡ slice_split is_space line.now) }
{
    let mut words = Vec::new(alloc);
    for word in line.split(|byte| *byte == b' ') {
        words.push(Text::new(alloc, word)?)?;
    }
    Ok(words)
}

// The request that a line asks for, and None where it is none.
fn read_line(alloc: Global, line: &[u8]) -> Result<Option<Request>, NoMemory>
    ensures read { IfOk result (λ o. o ≡ result_ok (read_line line.now)) }
    ensures formed { IfOk result (λ o. IfSome o IsFormed) }
{
    let words = split_words(alloc, line)?;
    match Request::read(alloc, &words) {
        Ok(request) => Ok(Some(request)),
        Err(WordFault::Bad { .. }) => Ok(None),
        Err(WordFault::NoMemory) => Err(AllocError),
    }
}

fn is_written_so(alloc: Global, request: &Request, line: &[u8]) -> Result<bool, NoMemory>
    ensures { IfOk result (λ b. b ≡ bytes_eq (line_of request.now) line.now) }
{
    let mut written = Vec::new(alloc);
    request.write_line(alloc, &mut written)?;
    Ok(written.as_slice() == line)
}

// The request of a line of settings: one that changes the site, and of which this line is written.
fn setting_of(alloc: Global, line: &[u8]) -> Result<Option<Request>, NoMemory>
    ensures request { IfOk result (λ o. o ≡ setting_of line.now) }
    ensures setting { IfOk result (λ o. IfSome o (λ request. is_setting request ≡ true)) }
    ensures formed { IfOk result (λ o. IfSome o IsFormed) }
{
    let Some(request) = read_line(alloc, line)? else {
        return Ok(None);
    };
    let is_written_so = is_written_so(alloc, &request, line)?;
    if is_setting(&request) && is_written_so {
        Ok(Some(request))
    } else {
        Ok(None)
    }
}

// Carries out the request of a line of settings. False where the line is no such request, or it is refused.
fn settle_line(alloc: Global, index: &mut Index, line: &[u8]) -> Result<bool, NoMemory>
    requires known { (l : Ledger) × IsIndexOf l index.old }
    ensures { (l : Ledger) → IsIndexOf l index.old → IfOk result (IsSettled l (settled_by l.outline line.now) index.new) }
{
    let Some(request) = setting_of(alloc, line)? else {
        return Ok(false);
    };
    Ok(index.set(alloc, &request)?.is_none())
}

/// Carries out the requests of lines of settings, one after the other. False where one of them can't be; then nothing is said of
/// the index.
pub fn settle_lines(alloc: Global, index: &mut Index, lines: &[Text]) -> Result<bool, NoMemory>
    requires known { (l : Ledger) × IsIndexOf l index.old }
    ensures { (l : Ledger) → IsIndexOf l index.old → IfOk result (IsSettled l (settled l.outline lines.now) index.new) }
{
    for line in lines {
        if !settle_line(alloc, index, line.bytes())? {
            return Ok(false);
        }
    }
    Ok(true)
}
