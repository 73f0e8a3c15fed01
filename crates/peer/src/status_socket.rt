//! A second handle of a subscriber's socket, for status messages alone.

ghost use Rattle.std.specs.Prelude.{◌≡◌};
ghost use Rattle.peer.specs.StatusSockets.{giving, unused};

use frames::STATUS_LENGTH;
use std::marker::Model;
use std::net::{SocketAddr, UdpSocket};

/// A status message, and who it is for.
#[derive(Clone, Copy)]
struct Given {
    to: SocketAddr,
    bytes: [u8; STATUS_LENGTH],
}

/// A second handle of a subscriber's socket, so that another thread can send status messages from the same port. It hears
/// nothing, and no call waits. It keeps the last message that it was given.
#[derive(Drop)]
pub struct StatusSocket {
    socket: UdpSocket,
    count: u64,
    last: Option<Given>,
}

impl Model for StatusSocket {
    ghost use Rattle.peer.specs.StatusSockets.{StatusSending};

    ghost Value = { StatusSending };

    ghost view = { λ s. record { count = s.count; last = s.last } };
}

impl StatusSocket {
    /// A socket to which nothing was given yet.
    pub(crate) fn new(socket: UdpSocket) -> StatusSocket
        ensures { result ≡ unused }
    {
        StatusSocket {
            socket,
            count: 0,
            last: None,
        }
    }

    /// Hands a status message for somebody to the system. Whether it gets there nobody says. The count of these stays at the
    /// greatest `u64`.
    pub fn send(&mut self, to: SocketAddr, status: &[u8; STATUS_LENGTH])
        ensures { self.new ≡ giving self.old to status.now }
    {
        let bytes = *status;
        let _ = self.socket.send_to(&bytes, to);
        self.count = self.count.saturating_add(1);
        self.last = Some(Given { to, bytes });
    }
}
