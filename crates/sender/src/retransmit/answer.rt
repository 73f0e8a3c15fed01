ghost use Rattle.std.specs.Prelude.{◌≡◌};
ghost use Rattle.sender.specs.Resending.Answers.{code_of};

/// What became of a negative acknowledgement: the first that applies of out of range, no frame start, lingering, full,
/// taken.
#[derive(Clone, Copy, Debug, PartialEq, Eq)]
pub enum NakResult {
    /// What it asks for will be sent again.
    Taken,
    /// It asks for the same position as an action that is kept.
    Lingering,
    /// Sixteen actions are kept.
    Full,
    /// Its length isn't positive, or its position is below the start, more than three quarters of a term behind the
    /// sender, or not behind it.
    OutOfRange,
    /// No frame that was sent starts there.
    NotAFrameStart,
}

impl NakResult {
    /// The code that a user sees.
    pub fn code(self) -> &'static str
        ensures { result.now ≡ code_of self }
    {
        match self {
            NakResult::Taken => "N1",
            NakResult::Lingering => "N2",
            NakResult::Full => "N3",
            NakResult::OutOfRange => "N4",
            NakResult::NotAFrameStart => "N5",
        }
    }
}
