ghost use Rattle.std.specs.Prelude.{◌≡◌, Some};
ghost use Rattle.vault_disk.specs.Disk.{Image};
ghost use Rattle.desk_model.specs.State.{State};
ghost use Rattle.desk_model.specs.Sound.{Sound, KeepsCopies};
ghost use Rattle.vault_ledger.specs.Ledger.{stands};

/// A law of the vault: whatever an image of a disk stands for is sound, and each copy kept in it restores the bytes of its image.
pub fn vaults_stand_sound()
    ensures { (c : Image) (s : State) → stands c ≡ Some s → Sound s × KeepsCopies s }
{}
