//! The null device in place of the standard descriptors that are closed.
//!
//! What is opened gets the lowest number that is free. So where a standard descriptor is closed, a socket would get its number, and
//! what is told or printed there would be sent; or what is received would be read as the input. What the system answers no
//! contract says.

use crate::fault::Fault;
use command_line::Closed;
use libc::{EBADF, STDERR_FILENO, STDIN_FILENO, STDOUT_FILENO};

/// The null device: it reads as empty, and what is written to it is gone.
const NULL: &[u8] = b"/dev/null";

/// Whether a descriptor of this number is open.
fn is_open(number: i32) -> bool {
    let copy = os::duplicate(number);
    if copy < 0 {
        // An open one can't be copied where the process may have no more descriptors.
        return os::errno() != EBADF;
    }
    libc::close(copy);
    true
}

/// Opens the null device by this number where it is closed and all below it are open. The answer is whether it was closed.
fn fill(number: i32) -> Result<bool, Fault> {
    if is_open(number) {
        return Ok(false);
    }
    if os::open_update(NULL) < 0 {
        return Err(Fault::Null);
    }
    Ok(true)
}

/// Opens the null device by the number of each standard descriptor that is closed. The answer is which were; the error comes where
/// the null device can't be opened.
pub fn fill_closed() -> Result<Closed, Fault> {
    Ok(Closed {
        input: fill(STDIN_FILENO)?,
        output: fill(STDOUT_FILENO)?,
        errors: fill(STDERR_FILENO)?,
    })
}
