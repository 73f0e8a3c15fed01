//! What couldn't be made.

use std::alloc::AllocError;

/// It wasn't made, since memory was refused. What it would have been made of is given back as it was.
#[derive(Drop)]
pub struct Denied<T> {
    pub given: T,
}

impl<T: Drop> From<Denied<T>> for AllocError {
    fn from(_denied: Denied<T>) -> AllocError {
        AllocError
    }
}
