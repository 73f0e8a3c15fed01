//! Who is asked for a SETUP of a session that nobody follows.

ghost use Rattle.std.specs.Prelude.{◌≡◌, ◌<◌, ◌↔◌, IsTrue, OnOk, length};
ghost use Rattle.std.specs.Io.KnownBytes.{Appends};
ghost use Rattle.frames.specs.Frames.{header_of};
ghost use Rattle.subscriber.specs.Callers.{AsksCaller, HasNext, IsAsked, IsUntold, Names, asked_for};
ghost use Rattle.subscriber.specs.Calls.{IsTaken};
ghost use Rattle.subscriber.specs.Receivings.{caller_given};
ghost use Rattle.subscriber.specs.Texts.{unheard_line};
ghost use Rattle.theory.specs.Wire.{IsHeader};

use crate::images::Images;
use crate::images::session::Session;
use crate::images::sessions::Sessions;
use crate::listening::reception::Reception;
use crate::listening::setup_offer::{id_of, takes_session};
use crate::reporting::{Line, SessionId, tell};
use crate::subscription::Subscription;
use crate::subscription::offers::Chosen;
use frames::Header;
use receiver::asking;
use std::io;
use std::io::Write;
use std::net::SocketAddr;

/// Whether a session is another one than the one that is followed here, which is to be told as not heard.
fn is_untold(followed: &Session, session: i32) -> bool
    ensures { IsTrue result ↔ IsUntold session followed.now }
{
    session != followed.opening.session && followed.unheard.is_unnamed(session)
}

/// The number of the next image at a place.
fn next_number(sessions: &[Session], place: usize) -> u64
    requires { place < length sessions.now }
    ensures { HasNext sessions.now place result }
{
    sessions[place].images.next_number()
}

/// Tells once of each of up to 16 sessions, of which a frame came from somebody, that there is no place for it beside the one
/// that is followed here.
fn tell_unheard<E: Write>(
    followed: &mut Session,
    session: i32,
    from: SocketAddr,
    errors: &mut E,
) -> io::Result<()>
    ensures names { Names session followed.old followed.new }
    ensures told { IsUntold session followed.old → OnOk result (Appends (E.contents errors.old) (E.contents errors.new) (unheard_line session from followed.old.opening.session)) }
    ensures quiet { ¬ IsUntold session followed.old → OnOk result (E.contents errors.new ≡ E.contents errors.old) }
{
    if !is_untold(followed, session) {
        return Ok(());
    }
    followed.unheard.name(session);
    let own = SessionId(followed.opening.session);
    tell(errors, Line::Unheard(SessionId(session), from, own))
}

impl Subscription<'_> {
    /// Whether the plan takes a frame with this header.
    fn takes(&self, header: &Header) -> bool
        ensures { IsTrue result ↔ IsTaken self.now.plan (header_of header.now) }
    {
        header.stream == self.plan.end.stream && takes_session(&self.plan, header.session)
    }

    /// Asks who sent a frame for a SETUP that opens the image with this number.
    fn ask_for(&self, reception: &mut Reception, from: SocketAddr, header: &Header, number: u64)
        requires { IsHeader (header_of header.now) }
        ensures { reception.new ≡ record reception.old { socket = asked_for self.now.plan from header.now number reception.old.socket } }
    {
        reception.ask(from, asking(header, id_of(&self.plan, number)));
    }

    /// Asks who sent a frame for a SETUP, where there is a place for its session, which nobody follows. Where there is none that is
    /// told.
    fn ask_where_placed<E: Write>(
        &self,
        sessions: &mut Sessions,
        from: SocketAddr,
        header: &Header,
        errors: &mut E,
    )
        requires { IsHeader (header_of header.now) }
        ensures asked { IsAsked self.now.plan from header.now sessions.old.list.items sessions.old.reception.socket sessions.new.list.items sessions.new.reception.socket }
        ensures same { sessions.new.reception ≡ record sessions.old.reception { socket = sessions.new.reception.socket } }
    {
        match self.choose(sessions.list.as_slice(), header.session) {
            Chosen::Own(_) => {}
            Chosen::Given(place) => {
                let next = next_number(sessions.list.as_slice(), place);
                self.ask_for(&mut sessions.reception, from, header, next);
            }
            Chosen::Further => {
                let first = Images::first(sessions.list.len());
                self.ask_for(&mut sessions.reception, from, header, first.number);
            }
            Chosen::Nowhere => {
                let _ = tell_unheard(&mut sessions.list[0], header.session, from, errors);
            }
        }
    }

    /// Asks the sender of the last frame that was nobody's for a SETUP, where there is a place for its session.
    pub(crate) fn ask_caller<E: Write>(&self, sessions: &mut Sessions, errors: &mut E)
        ensures asks { AsksCaller self.now.plan sessions.old.reception.caller sessions.old.list.items sessions.old.reception.socket sessions.new.list.items sessions.new.reception.socket }
        ensures left { sessions.new.reception ≡ record (caller_given sessions.old.reception) { socket = sessions.new.reception.socket } }
    {
        let Some((from, header)) = sessions.reception.take_caller() else {
            return;
        };
        if self.takes(&header) {
            self.ask_where_placed(sessions, from, &header, errors);
        }
    }
}
