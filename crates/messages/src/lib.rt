//! Messages in a stream of bytes, written and read: each with a line feed behind it, or with its length before it.
//!
//! A writer that tells what it holds has, where a message was written, grown by its line or its block exactly
//! (`spelled`); at an error by a part of that, never all; a block of 2^32 bytes or more is refused and leaves nothing
//! (`write_message`).
//!
//! Of a reader that tells its bytes, a message that is given is what was taken of them: a line with its line feed,
//! the last one perhaps without, or a block; none is given only at the end. `TooLong` and `Cut` name the message and
//! come only where the bytes taken are too long or cut short; `Read` and `Memory` come only where what was taken
//! isn't too long (`read_message`, by `Gives` and `Explains`). That a read which fails is a fault isn't said. No more
//! of the input is held than the message that is being read. The end of an input is read once (`FusedReader`).
#![tactic(auto)]

mod blocks;
mod bytes;
mod fault;
mod form;
mod fused;
mod laws;
mod lines;
mod reading;
mod writing;

pub use fault::InputFault;
pub use form::Form;
pub use fused::FusedReader;
pub use laws::have_one_reading;
pub use reading::read_message;
pub use writing::{OutputFailed, write_message};
