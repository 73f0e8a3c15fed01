/// A claim that a publisher has open: where it begins, and the size of its message in bytes.
#[derive(Clone, Copy, Debug, PartialEq, Eq)]
pub struct Held {
    pub start: u64,
    pub size: u32,
}
