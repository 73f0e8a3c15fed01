//! How far a sender may send: receivers say in status messages how far they can take frames, and a flow control makes
//! one limit of that, a position that no frame may pass. No call takes memory.
//!
//! The limit never falls and is never above what status messages have allowed (`FlowControl`, a trait with these
//! laws). For one receiver it is exactly the greatest of the start and of what each allowed, for any numbers
//! (`UnicastFlow`). For a group it is exactly the group's limit by the definition, for any ids, numbers and moments
//! (`LeastFlow`); that each keeps enough for that is `keeps_enough`, and that one that is silent holds the others up no longer
//! `silent_ones_dont_count`. `StreamFlow` is either, by how many
//! destinations a stream has (`group_of`).
#![tactic(auto)]

ghost use Rattle.flow_control.specs.Laws.{GroupKeepsEnough, OneKeepsEnough, SilentOnesDontCount};

mod flow;
mod least;
mod reach;
mod stream;
mod unicast;

pub use flow::FlowControl;
pub use least::{LIVE, LeastFlow};
pub use stream::{StreamFlow, group_of};
pub use unicast::UnicastFlow;

/// Whatever status messages and moments came, what a flow control keeps of them gives what all of them give.
pub fn keeps_enough()
    ensures one { OneKeepsEnough }
    ensures group { GroupKeepsEnough }
{}

/// A receiver of a group that was silent for 5 s doesn't count: what the others are let go is the least over them alone.
pub fn silent_ones_dont_count()
    ensures { SilentOnesDontCount }
{}
