/// A range of a stream.
#[derive(Clone, Copy, Debug, PartialEq, Eq)]
pub struct Gap {
    /// The position at which it begins.
    pub start: u64,
    /// In bytes; a gap that is told, and a range that is due, have some.
    pub length: u64,
}
