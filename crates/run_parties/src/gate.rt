//! What parties pass in each of their cycles.

/// Who has cycles.
#[derive(Clone, Copy, Debug, PartialEq, Eq)]
pub enum Role {
    Sender,
    /// The receiver with this number, 0 to 7.
    Receiver(u64),
    Conductor,
    /// The publisher with this number, 0 to 7; each of its offers is a cycle.
    Publisher(u64),
}

/// What each party passes when a cycle of its begins, and when it has ended. Cycles are counted from 0. A gate may hold a
/// thread for a while; the others go on meanwhile.
pub trait Gate {
    /// A cycle begins.
    fn enter(&self, role: Role, cycle: u32);

    /// A cycle has ended.
    fn leave(&self, role: Role, cycle: u32);
}

/// A gate that is always open.
#[derive(Clone, Copy, Debug)]
pub struct Open;

impl Gate for Open {
    fn enter(&self, _role: Role, _cycle: u32) {}

    fn leave(&self, _role: Role, _cycle: u32) {}
}
