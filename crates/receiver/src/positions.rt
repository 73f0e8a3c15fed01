//! Where an image and its consumers stand.

/// Where an image and its consumers stand, in bytes of the stream.
#[derive(Clone, Copy, Debug, PartialEq, Eq)]
pub struct Positions {
    /// The least position of its consumers.
    pub least: u64,
    /// The end of what is rebuilt without a gap.
    pub rebuilt: u64,
    /// The greatest position that the sender is known to have reached.
    pub high_water: u64,
}
