/// A negative acknowledgement that was taken.
#[derive(Clone, Copy, Debug, PartialEq, Eq)]
pub(crate) struct Action {
    /// The position that it named.
    pub at: u64,
    /// The bytes that it asked for.
    pub length: u32,
    /// Whether it was answered, and is only kept so that it isn't answered again at once.
    pub lingers: bool,
    /// The moment at which it is forgotten, once it lingers.
    pub until: u64,
}
