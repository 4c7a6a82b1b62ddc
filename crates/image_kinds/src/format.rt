// The two formats of a stream.
ghost use Rattle.std.specs.Prelude.{◌≡◌};
ghost use Rattle.image_kinds.specs.Streams.{letters_of, keeps};

#[derive(Clone, Copy, Debug)]
pub enum Format {
    // What a client sends: taken entries alone.
    Stream,
    // What an image holds: taken and kept entries.
    Image,
}

impl Format {
    // The letters at its front.
    pub fn letters(self) -> &'static [u8]
        ensures { result.now ≡ letters_of self }
    {
        match self {
            Format::Stream => b"NBC1",
            Format::Image => b"NBI1",
        }
    }

    pub fn keeps(self) -> bool
        ensures { result ≡ keeps self }
    {
        matches!(self, Format::Image)
    }
}
