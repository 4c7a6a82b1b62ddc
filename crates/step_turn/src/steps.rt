ghost use Rattle.std.specs.Prelude.{◌≡◌, true, false, OnOk};
ghost use Rattle.step_turn.specs.Meaning.{Meaning, HasCause, Stepped, ReopenedSo, ReopenCause};

use std::alloc::Global;

/// An object with a state, which takes one step at a time. After a step that failed it is stopped, until it is opened again.
pub trait Steps {
    /// What a step is asked, as a history has it.
    type Asked;

    /// What a step answers.
    type Answer;

    /// What is said of the object: its state, where it tells it, whether it is stopped, its count of faults, and what a step may
    /// answer in a state.
    ghost meaning: { Meaning Self Self.Asked Self.Answer };

    /// Whether a step failed, and the object wasn't opened again since.
    fn is_stopped(&self) -> bool
        ensures { result ≡ (meaning).stopped self.now };

    /// Opens a stopped object again. Where that is refused it stays stopped, and the refusal is the answer of the call that asked
    /// for it.
    fn reopen(&mut self, alloc: Global) -> Result<(), Self::Answer>
        requires stopped { (meaning).stopped self.old ≡ true }
        ensures reopened { (meaning).tells self.old → ReopenedSo meaning self.old self.new result }
        ensures running { OnOk result ((meaning).stopped self.new ≡ false) }
        ensures cause { ReopenCause meaning self.old self.new result };
}

/// An object that can be asked by questions of this type.
pub trait StepsBy<Q>: Steps {
    /// What a question asks.
    ghost asks: { Q → Self.Asked };

    /// Which questions may be put.
    ghost may_ask: { Q → Type 0 };

    /// One step: it answers by the object's state and goes on to the next one, or it finds no memory and the state stays, or it
    /// fails, and the object is stopped between the two.
    fn step(&mut self, alloc: Global, question: &Q) -> Self::Answer
        requires running { Self.meaning.stopped self.old ≡ false }
        requires may { may_ask question.now }
        ensures stepped { Self.meaning.tells self.old → Stepped Self.meaning self.old (asks question.now) result self.new }
        ensures cause { HasCause Self.meaning self.old self.new result };
}
