/// How a message stands in a stream of bytes.
#[derive(Clone, Copy, Debug, PartialEq, Eq)]
pub enum Form {
    /// A line feed stands behind it.
    Lines,
    /// Its length in bytes stands before it: 32 bits, little-endian.
    Blocks,
}
