use crate::Failed;

/// A clock. Moments are seconds since 1970-01-01T00:00:00Z, at most 250,000,000,000.
pub trait Clock {
    ghost use Rattle.std.specs.Prelude.{◌≡◌, ◌+◌, ◌-◌, ◌^◌, ◌≤◌, ◌++◌, ◌∷◌, [], length, IfOk, OnErr};
    ghost use Rattle.vault_disk.specs.Ticks.{Ticks, IsSameClock};
    ghost use Rattle.vault_disk.specs.Steps.{HasCause};

    /// All that is known of the clock.
    ghost ticks: { Self → Ticks };

    /// The moment that it is.
    fn now(&mut self) -> Result<u64, Failed>
        ensures limit { IfOk result (λ m. m ≤ 250000000000) }
        ensures gave { (ticks self.old).tells → IfOk result (λ m. (ticks self.new).gave ≡ (ticks self.old).gave ++ m ∷ []) }
        ensures kept { (ticks self.old).tells → OnErr result ((ticks self.new).gave ≡ (ticks self.old).gave) }
        ensures planned { IfOk result (λ m. (ticks self.old).may_give (length (ticks self.old).gave) m) }
        ensures reliable { (ticks self.old).reliable → OnErr result (2 ^ 64 - 1 ≤ length (ticks self.old).gave) }
        ensures same { IsSameClock (ticks self.old) (ticks self.new) }
        ensures cause { HasCause (ticks self.old).faults (ticks self.new).faults result };
}

impl<C: Clock> Clock for &mut C {
    ghost use Rattle.std.specs.Prelude.{◌∷◌};

    ghost ticks = { λ s. record (C.ticks s.now) { place = s.ghost_name ∷ (C.ticks s.now).place } };

    fn now(&mut self) -> Result<u64, Failed> {
        (**self).now()
    }
}
