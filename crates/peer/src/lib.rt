//! The two ends of a channel, over UDP: a socket that hears anybody (`Listener`), which both ends have; a publisher's device over it,
//! tied to one peer (`TiedDevice`), and what stands round that, which screens what comes, notes which receivers it hears and when
//! it ends by that; and a device that sends to one of a subscriber's peers (`PeerDevice`).
//!
//! A tied device meets the trait of devices: it fails only where it counts that. What it hands over came from its peer; what
//! others sent is passed over. A receive finds nothing only where nothing has come or 256 datagrams were passed over since one
//! found nothing, so a cycle passes over no more (`TiedDevice`, by `HandsOver`; `passing_is_bounded`). A publisher's waits for its stream's start: until a status message tells
//! that, any address of its peer's port is heard, and who tells it is its peer from then on (`TiedDevice::along`, by `Settles`).
//! What it sends is given to its socket for the one that it was made for, or tied to. A device round
//! another that never fails takes a failed call for a lost datagram, and counts exactly those (`PatientDevice`). The farewell of
//! a stream, a SETUP that no sender writes, tells where that stream ends, and whether it is broken off there, and nothing else
//! (`end_told`, `farewells_tell_ends`).
//!
//! What becomes of a frame that comes to a publisher is exact (`judge`): a status message of its stream that tells more
//! than was sent, or a greater window than a receiver can have, isn't believed; of the negative acknowledgements of a
//! cycle those are held back that would ask for more than a window together; all else is handed over. A publisher's
//! device meets the trait round any other, and does by each datagram that is one frame exactly what that verdict says,
//! and by others nothing; where there are several receivers, of one that is left behind, since what it lacks can't be sent again,
//! neither status messages nor negative acknowledgements are handed over (`screened`). What isn't handed over is passed over and
//! counted, 256 at the most before a receive finds nothing, and the buffer stays; one negative acknowledgement at a time is held
//! back, and goes first in the next cycle. Each datagram that it sends is counted, and the ends that it tells are noted
//! (`Attended`, by `Takes` and `Gives`).
//!
//! What each status message makes of the receivers that were heard, and when and how a publisher ends by that, is
//! exact (`Attendance::hear`, `Attendance::ending`). It ends whole exactly where its input has ended, and nothing was to
//! be delivered or all messages were of one receiver, the first tells the start and one tells the tail
//! (`one_from_the_start`). That anybody is heard isn't said.
//!
//! Where receivers are known by numbers, a status message gets its receiver's for the id (`number_status`).
//!
//! A subscriber's socket has a second handle for another thread, which sends status messages from the same port and hears
//! nothing; it keeps exactly the last that it was given (`Listener::status_socket`, `StatusSocket`). By a further one each of its
//! sessions sends to its peer (`Listener::peer_device`, `PeerDevice`).
#![tactic(auto)]

mod attendance;
mod attended;
mod farewell;
mod fault;
mod listener;
mod numbering;
mod patient;
mod peer_device;
mod screen;
mod silence;
mod status_socket;
mod tied;

pub use attendance::{Attendance, Ending, Heard, one_from_the_start};
pub use attended::{Attended, Behind, Tally, ToldEnds};
pub use farewell::{StreamEnd, end_told, farewell_of, farewells_tell_ends};
pub use fault::BindError;
pub use listener::Listener;
pub use numbering::{number_status, setup_in};
pub use patient::PatientDevice;
pub use peer_device::PeerDevice;
pub use screen::{Bounds, Verdict, judge};
pub use silence::Silence;
pub use status_socket::StatusSocket;
pub use tied::{Awaited, TiedDevice, passing_is_bounded};
