//! Plain bytes in one block of memory, which is given back when its `Region` is dropped, wherever the rights to its
//! bytes are by then. A `WriteAccess` is the right to write a run of bytes, a `ReadAccess` a part of the right to read
//! one: they take no memory, and lie in slots of a table as well as anywhere else.
#![tactic(auto)]

mod access;
mod copying;
mod eighths;
mod loan;
mod pool;
mod region;

pub use crate::access::{Access, ReadAccess, RegionKey, WriteAccess};
pub use crate::eighths::{EIGHTH, eight_readers};
pub use crate::loan::{LentBytes, Loan};
pub use crate::pool::Pool;
pub use crate::region::{Region, RegionStart};
