// A request that changes the site.
ghost use Rattle.std.specs.Prelude.{◌≡◌, ℕ, List, [], ◌∷◌, true, IfOk, IfErr, OnErr};
ghost use Rattle.site_types.specs.Lines.{IsFormed, line_of};
ghost use Rattle.pool_journal.specs.Entries.{IsStaged};
ghost use Rattle.pool_journal.specs.declared.entry.Entry.TheVariants as entry;
ghost use Rattle.desk_model.specs.Settings.{is_setting};
ghost use Rattle.vault_ledger.specs.Ledger.{Ledger};
ghost use Rattle.desk_index.specs.Answers.{IsStepRefusal};
ghost use Rattle.desk_index.specs.Changes.{IsReady, IsRefusedOver};
ghost use Rattle.desk_index.specs.Index.{IsIndexOf, SameLists};

use crate::index::Index;
use crate::lines::{line_of, stage_lines};
use crate::ready::Ready;
use pool_journal::Staged;
use site_types::{Answer, NoMemory, Request, Text};
use std::alloc::Global;

fn stage_request(alloc: Global, request: &Request) -> Result<Staged, NoMemory>
    requires { IsFormed request.now }
    ensures { IfOk result (IsStaged (entry.Settings (line_of request.now ∷ []))) }
{
    let mut lines = Vec::new(alloc);
    lines.push(line_of(alloc, request)?)?;
    stage_lines(alloc, lines)
}

/// Makes ready the record of a request that changes the site. From then on the index is that of the ledger after it. A refusal
/// leaves it that of the same ledger, with the same site and catalogue.
pub fn prepare_change(alloc: Global, index: &mut Index, request: &Request) -> Result<Ready, Answer>
    requires setting { is_setting request.now ≡ true }
    requires formed { IsFormed request.now }
    requires known { (l : Ledger) × IsIndexOf l index.old }
    ensures ready { (l : Ledger) (payload : List ℕ) (moment : ℕ) → IsIndexOf l index.old → IfOk result (λ r. IsReady l request.now payload moment r.staged r.body index.new) }
    ensures refused { (l : Ledger) (payload : List ℕ) (moment : ℕ) → IsIndexOf l index.old → IfErr result (IsRefusedOver l request.now payload moment) }
    ensures plain { IfErr result IsStepRefusal }
    ensures kept { (l : Ledger) → IsIndexOf l index.old → OnErr result (IsIndexOf l index.new) }
    ensures unchanged { OnErr result (SameLists index.old index.new) }
{
    let Ok(staged) = stage_request(alloc, request) else {
        return Err(Answer::OutOfMemory);
    };
    match index.set(alloc, request) {
        Ok(None) => Ok(Ready {
            staged,
            body: Text::from_vec(Vec::new(alloc)),
        }),
        Ok(Some(refusal)) => Err(refusal),
        Err(_) => Err(Answer::OutOfMemory),
    }
}
