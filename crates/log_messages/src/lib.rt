//! The messages of a log, as one of its readers gets them, in any thread.
//!
//! `LogMessages` owns a reader, the assembler that joins frames to messages, and memory for a frame. It reads each frame once, from
//! where the reader began, each where the one before ends, and gives each message that they complete, once and in order:
//! whatever other threads do meanwhile, what it has given is exactly what an assembler makes of the frames that it has read
//! (`given_of`), and each of those was committed by a pass
//! (`what_is_read_is_committed`); and of a closed log none was left out (`all_that_is_committed_is_read`). Where a message is longer
//! than the greatest, or memory is refused, that message is lost and told as an error, and those behind it go on.
//!
//! A log that was closed with all its passes is a stream of the entries that its publishers have claimed, each one's in its order,
//! and what its readers polled are the messages of that stream, from where they began to where they stand
//! (`closed_log_is_a_stream`).
#![tactic(auto)]

mod denied;
mod law;
mod log_messages;

pub use denied::Denied;
pub use law::{
    all_that_is_committed_is_read, closed_log_is_a_stream, commits_its_claims,
    what_is_read_is_committed,
};
pub use log_messages::LogMessages;
