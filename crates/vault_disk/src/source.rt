use crate::Failed;

/// Where the bytes of a session come from.
pub trait Source {
    ghost use Rattle.std.specs.Prelude.{◌≡◌, ◌+◌, ◌≤◌, length, IfOk, OnErr};
    ghost use Rattle.vault_disk.specs.Input.{Input, Took, IsSameInput};
    ghost use Rattle.vault_disk.specs.Steps.{HasCause};

    /// All that is known of the source.
    ghost input: { Self → Input };

    /// Takes the first bytes of what is left, and says how many: none only at the end, or for an empty slice. A read that
    /// fails takes nothing.
    fn read(&mut self, into: &mut [u8]) -> Result<usize, Failed>
        ensures bound { IfOk result (λ n. n ≤ length into.new) }
        ensures took { (input self.old).tells → IfOk result (λ n. Took (input self.old).left n into.new (input self.new).left) }
        ensures kept { (input self.old).tells → OnErr result ((input self.new).left ≡ (input self.old).left) }
        ensures spent { IfOk result (λ n. (input self.new).budget + n ≤ (input self.old).budget) }
        ensures budget { (input self.new).budget ≤ (input self.old).budget }
        ensures reliable { (input self.old).reliable → OnErr result ⊥ }
        ensures same { IsSameInput (input self.old) (input self.new) }
        ensures cause { HasCause (input self.old).faults (input self.new).faults result };
}

impl<S: Source> Source for &mut S {
    ghost use Rattle.std.specs.Prelude.{◌∷◌};

    ghost input = { λ s. record (S.input s.now) { place = s.ghost_name ∷ (S.input s.now).place } };

    fn read(&mut self, into: &mut [u8]) -> Result<usize, Failed> {
        (**self).read(into)
    }
}
