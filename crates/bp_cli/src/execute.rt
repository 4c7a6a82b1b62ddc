// A single request from its words to its answer: the vault is opened, the payload and the moment are gathered, and it is carried out.
ghost use Rattle.std.specs.Prelude.{◌≡◌, false};
ghost use Rattle.site_types.specs.Lines.{IsFormed};
ghost use Rattle.vault_disk.specs.Disk.{IsSame};
ghost use Rattle.desk_model.specs.State.{State};
ghost use Rattle.site_desk.specs.Stands.{opened, state_in};
ghost use Rattle.bp_cli.specs.Gather.{IsLimited};
ghost use Rattle.bp_cli.specs.Runs.{refusal_of, said, Acted, HasRisen};
ghost use Rattle.bp_cli.specs.Singles.{IsAnswered, IsExecuted};

use crate::gather::{Inputs, gather};
use crate::words::{TimedRequest, read_timed_request};
use pool_journal::JournalFault;
use site_desk::Desk;
use site_types::{Answer, Text, WordFault};
use std::alloc::Global;
use vault_disk::{Clock, Source, Vault};

// Carries a request out on an open vault.
fn execute<V: Vault, S: Source, C: Clock>(
    alloc: Global,
    desk: &mut Desk<V>,
    timed: &TimedRequest,
    source: &mut S,
    clock: &mut C,
) -> Answer
    requires running { desk.old.stopped ≡ false }
    requires limited { IsLimited timed.now.moment }
    requires formed { IsFormed timed.now.request }
    ensures acted { Acted (λ o. IsExecuted timed.now (S.input source.old) (S.input source.new) (C.ticks clock.old) (C.ticks clock.new) o × HasRisen (V.disk desk.old.vault).faults (V.disk desk.new.vault).faults (S.input source.old).faults (S.input source.new).faults (C.ticks clock.old).faults (C.ticks clock.new).faults (said o)) desk.old.state desk.new.state (V.disk desk.old.vault) (V.disk desk.new.vault) result }
    ensures same { IsSame (V.disk desk.old.vault) (V.disk desk.new.vault) }
{
    match gather(
        alloc,
        timed.request.takes_payload(),
        timed.moment,
        source,
        clock,
    ) {
        Ok(Inputs { payload, moment }) => {
            desk.step(alloc, &timed.request, payload.bytes(), moment)
        }
        Err(answer) => answer,
    }
}

// The answer where the vault can't be opened.
fn refusal(fault: JournalFault) -> Answer
    ensures { result ≡ refusal_of fault }
{
    match fault {
        JournalFault::NoMemory => Answer::OutOfMemory,
        JournalFault::DiskFault => Answer::DiskFault,
        JournalFault::NotAVault { offset } => Answer::NotAVault { offset },
    }
}

/// Answers what these words ask for, on this vault, and hands it back.
pub fn answered<V: Vault, S: Source, C: Clock>(
    alloc: Global,
    words: &[Text],
    vault: V,
    source: &mut S,
    clock: &mut C,
) -> (V, Answer)
    ensures acted { (state : State) × Acted (IsAnswered words.now (V.disk vault) (V.disk result.0) (S.input source.old) (S.input source.new) (C.ticks clock.old) (C.ticks clock.new)) (state_in (opened (V.disk vault).seen)) state (V.disk vault) (V.disk result.0) result.1 }
    ensures same { IsSame (V.disk vault) (V.disk result.0) }
{
    let timed = match read_timed_request(alloc, words) {
        Ok(timed) => timed,
        Err(fault) => match fault {
            WordFault::Bad { index } => return (vault, Answer::BadRequest { index }),
            WordFault::NoMemory => return (vault, Answer::OutOfMemory),
        },
    };
    match Desk::open_vault(alloc, vault) {
        Ok(mut desk) => {
            let answer = execute(alloc, &mut desk, &timed, source, clock);
            (desk.close(), answer)
        }
        Err(refused) => {
            let (vault, fault) = refused;
            (vault, refusal(fault))
        }
    }
}
