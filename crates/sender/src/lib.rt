//! A sender's core: the committed frames of a log, what receivers tell, and moments in, datagrams out. No thread,
//! socket or clock is here: a caller lends the log, hands in events and moments, and takes what the outbox holds.
//!
//! For every flow control and every source of frames, in words of what its reads gave, it is exact what goes out at a
//! tick and at a datagram, what it answers, and that it stands behind what it sent (`SenderCore::step`). A tick's
//! datagrams are those of the definitions: a SETUP if one is due; new frames in at most 16 (all that may go, up to
//! the first that isn't committed, ends above the flow limit or has no place); the frames of one range that is due,
//! in at most 15; and a heartbeat where nothing else goes out and its time has come. Whatever can be asked for again
//! is there to be reread. Of the log nothing changes but what the reads leave. It takes the stream's start, a
//! multiple of 32, and a flow control whose limit begins there; where memory is refused when it is made, the reads
//! and the flow control come back as they were (`SenderCore::new`, `into_reads`).
//!
//! Its two parts stand alone too: when a SETUP is due, for all moments (`SenderSetup`), and which NAKs are taken and which
//! range is due to go out again (`Retransmit`).
#![tactic(auto)]

mod again;
mod identity;
mod naming;
mod news;
mod packing;
mod retransmit;
mod sender_core;
mod stream_frame;

pub use frames::Outbox;
pub use naming::SenderSetup;
pub use retransmit::answer::NakResult;
pub use retransmit::handler::Retransmit;
pub use retransmit::{near_starts_suffice, range_begins_first};
pub use sender_core::{Denied, SenderAnswer, SenderCore, SenderEvent};
