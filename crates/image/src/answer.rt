ghost use Rattle.std.specs.Prelude.{◌≡◌};
ghost use Rattle.image.specs.Codes.{answer_code};

/// What became of a frame: the first of these that applies, but `Stored` where no other does. Only a stored frame
/// changes the image.
#[derive(Clone, Copy, Debug, PartialEq, Eq)]
pub enum Insert {
    /// It is held from now on.
    Stored,
    /// A held frame starts there, of the same kind and length.
    Duplicate,
    /// It starts below the least consumer.
    Below,
    /// It ends above the window: a padding, if its header does.
    OverWindow,
    /// It would overlap a held frame.
    Overlap,
    /// It would pass the end of its term.
    CrossesTerm,
}

impl Insert {
    /// The code that a user sees.
    pub fn code(self) -> &'static str
        ensures { result.now ≡ answer_code self }
    {
        match self {
            Insert::Stored => "I1",
            Insert::Duplicate => "I2",
            Insert::Below => "I3",
            Insert::OverWindow => "I4",
            Insert::Overlap => "I5",
            Insert::CrossesTerm => "I6",
        }
    }
}
