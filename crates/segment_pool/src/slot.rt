// What a pool knows of its held slots.
ghost use Rattle.std.specs.Prelude.{◌≡◌, ◌||◌, nat_lt};

/// What a pool knows of a held slot: it is live or pinned.
#[derive(Clone, Copy, Debug)]
pub struct Slot {
    /// How many jobs need it.
    pub pins: u64,
    /// How often kept copies name it. It is 0 for a slot that isn't live.
    pub count: u64,
    /// The length of its piece in bytes.
    pub length: u32,
    /// The digest of its piece.
    pub digest: [u8; 32],
    /// A sealed copy names it, or did until it expired.
    pub live: bool,
}

impl Slot {
    // A slot is held while it is live or pinned.
    pub(crate) fn is_held(&self) -> bool
        ensures { result ≡ (self.now.live || nat_lt 0 self.now.pins) }
    {
        self.live || self.pins > 0
    }
}

/// What is recorded of a held slot.
#[derive(Clone, Copy, Debug)]
pub struct HeldSlot {
    /// A sealed copy names it, or did until it expired.
    pub live: bool,
    /// The length of its piece in bytes.
    pub length: u32,
    /// The digest of its piece.
    pub digest: [u8; 32],
}
