ghost use Rattle.std.specs.Prelude.{◌≡◌, ℕ, List, true};
ghost use Rattle.step_turn.specs.declared.entry.Entry.{Entry};
ghost use Rattle.step_turn.specs.Histories.{Reaches};
ghost use Rattle.step_turn.specs.Order.{IsAdded};

use crate::steps::StepsBy;
use std::alloc::Global;

// A call of the object, which is opened first where it is stopped. Any history that led to the object goes on with it.
pub(crate) fn serve<S: StepsBy<Q>, Q>(object: &mut S, alloc: Global, question: &Q) -> S::Answer
    requires may { S.may_ask question.now }
    ensures { (start : S) (log : List (Entry S.Asked S.Answer)) (seat : ℕ) → Reaches S.meaning start log object.old → IsAdded S.meaning start log seat (S.asks question.now) result object.new }
{
    if object.is_stopped() {
        serve_stopped(object, alloc, question)
    } else {
        object.step(alloc, question)
    }
}

fn serve_stopped<S: StepsBy<Q>, Q>(object: &mut S, alloc: Global, question: &Q) -> S::Answer
    requires stopped { S.meaning.stopped object.old ≡ true }
    requires may { S.may_ask question.now }
    ensures { (start : S) (log : List (Entry S.Asked S.Answer)) (seat : ℕ) → Reaches S.meaning start log object.old → IsAdded S.meaning start log seat (S.asks question.now) result object.new }
{
    match object.reopen(alloc) {
        Ok(()) => object.step(alloc, question),
        Err(refusal) => refusal,
    }
}
