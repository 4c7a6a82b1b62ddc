ghost use Rattle.std.specs.Prelude.{◌≡◌, ◌≤◌, ℕ, List};
ghost use Rattle.site_types.specs.Limits.{last_moment};
ghost use Rattle.site_types.specs.Lines.{IsFormed};
ghost use Rattle.site_types.specs.declared.request.Request.{Request};
ghost use Rattle.desk_model.specs.State.{State, initial};
ghost use Rattle.desk_model.specs.Step.{step};
ghost use Rattle.desk_model.specs.Sound.{Sound, KeepsCopies};

/// A law of the model: the state of a new vault is sound, and each step leaves a sound state so.
pub fn states_are_sound()
    ensures new_vault { Sound initial }
    ensures steps { (s : State) (request : Request) (payload : List ℕ) (moment : ℕ) → Sound s → IsFormed request → moment ≤ last_moment → Sound (step s request payload moment).1 }
{}

/// A law of the model: in a sound state each kept copy restores the bytes of its image.
pub fn kept_copies_restore()
    ensures { (s : State) → Sound s → KeepsCopies s }
{}
