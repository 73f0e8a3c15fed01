//! Why a call fails.

ghost use Rattle.std.specs.Prelude.{◌≡◌};
ghost use Rattle.cores.specs.Numbers.{code_of};

/// Why a call fails. What has changed then, each call says.
#[derive(Clone, Copy, Debug, PartialEq, Eq)]
pub enum Fault {
    /// The room is shorter than what may have to be written. Nothing has changed.
    Room,
    /// Datagrams are left that weren't taken. Nothing has changed.
    Unsent,
    /// No SETUP has opened an image yet. Nothing has changed.
    NoImage,
    /// The message would be longer than the greatest: it is passed.
    TooLong,
    /// Memory was refused.
    Memory,
    /// The reader stands where no stream may start. Nothing has changed.
    Start,
    /// A group has at most eight receivers. Nothing has changed.
    Group,
    /// The reader has found a frame already. Nothing has changed.
    HasRead,
}

impl Fault {
    /// The number that a user sees.
    pub fn code(self) -> i32
        ensures { result ≡ code_of self }
    {
        match self {
            Fault::Room => -7,
            Fault::Unsent => -11,
            Fault::NoImage => -12,
            Fault::TooLong => -13,
            Fault::Memory => -19,
            Fault::Start => -22,
            Fault::Group => -25,
            Fault::HasRead => -26,
        }
    }
}
