//! A log that one hand holds: one caller has the log with all its passes, so that a call is said by the stream before
//! and after it (`Claims`, `LogHand`). Scripts are played on it.
//!
//! Exactly: an offer and a claim are answered by the stream alone (closed, used up, at the limit, fitting or not) and
//! add one entry, one padding or nothing; a commit and an abort end the publisher's claim; a read finds the one
//! committed frame at the reader's position, and none only where there is none; an advance goes to that frame's end;
//! a cleaning forgets what begins more than a term below the least consumer that is there, and raises the limit by it;
//! a join stands at the least, and after a leave nobody has the number; the book has the shares. Nothing else changes
//! in any call. `IsStream` says what holds of each such stream (`is_whole`).
//!
//! `LogHand` is the log that threads share, in one hand: every answer, and the stream after every call, is read off the
//! very words. Its publishers' calls are those of the trait `Claims`, the others are its own. `HandReader` is a reader by
//! its number, as a source of frames for a sender.
//!
//! What each command of a list answers and makes of the stream is a fold, on whatever meets `Claims` (`run_claims`);
//! where memory is refused nothing has changed.
#![tactic(auto)]

mod claims;
mod hand_reader;
mod log_hand;

pub use claims::Claims;
pub use claims::claim_command::{ClaimAnswer, ClaimCommand};
pub use claims::running::{answer_all, run_claims};
pub use hand_reader::HandReader;
pub use log_hand::LogHand;
pub use log_hand::held::Held;
