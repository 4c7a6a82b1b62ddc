// The lines of settings records.
ghost use Rattle.std.specs.Prelude.{◌≡◌, IfOk};
ghost use Rattle.site_types.specs.Lines.{line_of};
ghost use Rattle.pool_journal.specs.Entries.{IsWritable, IsStaged};

use pool_journal::{Entry, Journal, Staged};
use site_types::{ListOf, NoMemory, Request, Text};
use std::alloc::Global;

/// The line of a request.
pub fn line_of(alloc: Global, request: &Request) -> Result<Text, NoMemory>
    ensures { IfOk result (λ t. t ≡ line_of request.now) }
{
    let mut line = Vec::new(alloc);
    request.write_line(alloc, &mut line)?;
    Ok(Text::from_vec(line))
}

/// Takes all memory of a settings record with these lines. Those of one request fit into a record, and so do those of a site file
/// of which nothing is refused.
pub fn stage_lines(alloc: Global, lines: Vec<Text>) -> Result<Staged, NoMemory>
    requires { IsWritable (Entry.Settings lines.items) }
    ensures { IfOk result (IsStaged (Entry.Settings lines.items)) }
{
    let entry = Entry::Settings {
        lines: ListOf::from_vec(lines),
    };
    Journal::stage(alloc, &entry)
}
