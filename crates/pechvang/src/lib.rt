//! The log that threads share without a lock, for C and whatever calls C.
//!
//! A handle holds a pass in a box, or nothing, and each export says what it holds before and after: what
//! the call of that pass says, with the code that it answers. No export asks anything of its caller but what a C function
//! asks by its types. A handle that holds nothing, or a pass of another kind, gets a code, and nothing changes then; so
//! does a publisher's whose claim is open where the call wants none, or the other way round. Whatever a handle holds is let go when it is freed,
//! or another pass is put in: an open claim is aborted then, and the log is freed with the last of its passes.
#![tactic(auto)]

mod codes;
mod ends;
mod handle;
mod held;
mod keeping;
mod loose;
mod messages;
mod opening;
mod publishing;
mod reading;
mod receiving;
mod sending;
mod written;

pub use ends::{pv_next_datagram, pv_tick};
pub use handle::{Handle, pv_free};
pub use held::Pass;
pub use keeping::{pv_clean_and_limit, pv_join, pv_set_closed, pv_set_connected};
pub use messages::{pv_messages_position, pv_next_message, pv_open_messages};
pub use opening::{pv_open, pv_take_keeper, pv_take_publisher, pv_take_reader};
pub use publishing::{pv_abort, pv_claim, pv_claim_write, pv_commit, pv_offer, pv_share};
pub use reading::{Frame, pv_advance, pv_next};
pub use receiving::{pv_open_subscriber, pv_poll, pv_receive};
pub use sending::{pv_hear, pv_open_sender};
