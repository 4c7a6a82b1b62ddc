// Images as records have them, and as the catalogue has them.
ghost use Rattle.std.specs.Prelude.{◌≡◌, ◌≤◌, true, is_some, IfOk, OnOk, length};
ghost use Rattle.slp_tree.specs.Lifecycles.{version_named};
ghost use Rattle.desk_model.specs.Backups.{states_of};
ghost use Rattle.vault_ledger.specs.Fitting.{whole_entry};

use policy_book::Book;
use pool_journal::WholeImage;
use site_types::{CopyRecord, Expiry, ImageRecord, ListOf, NoMemory, OpState};
use slp_tree::Slp;
use std::alloc::Global;

// How far the operations of a version are when its backup is sealed: the first is complete, and the others wait.
#[tactic(auto, using(crate::proofs::ImageLemmas::waits_more, crate::proofs::ImageLemmas::states_sealed))]
fn states_of(alloc: Global, version: &Slp) -> Result<Vec<OpState>, NoMemory>
    ensures states { IfOk result (λ states. states.items ≡ states_of version.now.operations) }
    ensures some { OnOk result (1 ≤ length version.now.operations) }
{
    let mut states = Vec::new(alloc);
    states.push(OpState::Complete)?;
    for _ in 1..version.count() {
        states.push(OpState::Waiting)?;
    }
    Ok(states)
}

/// What the catalogue has of a record's image.
#[tactic(auto, using(crate::proofs::ImageLemmas::unit_found))]
pub fn record_of(alloc: Global, book: &Book, image: &WholeImage) -> Result<ImageRecord, NoMemory>
    requires version { is_some (version_named image.now.lifecycle image.now.version book.now.lifecycles) ≡ true }
    ensures { IfOk result (λ r. r ≡ whole_entry book.now image.now) }
{
    let Some(version) = book.lifecycles().find(&image.lifecycle, image.version) else {
        unreachable!()
    };
    let states = states_of(alloc, version)?;
    let copy = CopyRecord {
        number: 1,
        unit: version.unit(0).copy(alloc)?,
        completed: image.completed,
        expiry: Expiry::Rule,
    };
    Ok(ImageRecord {
        id: image.id.copy(alloc)?,
        policy: image.policy.copy(alloc)?,
        schedule: image.schedule.copy(alloc)?,
        kind: image.kind,
        base: image.base,
        lifecycle: image.lifecycle.copy(alloc)?,
        version: image.version,
        length: image.length,
        states: ListOf::from_vec(states),
        copies: ListOf::from_vec(Vec::from_array(alloc, [copy])?),
        primary: 1,
        active: true,
    })
}
