//! A SETUP that would open an image, and the subscriber that it opens.

ghost use Rattle.std.specs.Prelude.{◌≡◌, ◌≤◌, ◌↔◌, None, IfNone, IfOk, IfSome, IsTrue};
ghost use Rattle.frames.specs.Frames.{setup_of};
ghost use Rattle.receiver.specs.Representing.{Represents};
ghost use Rattle.subscriber.specs.Calls.{IsMeeting};
ghost use Rattle.subscriber.specs.Meetings.{Admits, HasMet, IsOngoing, Opens, OpensNothing, TakesSession, bytes_of, id_of, invited, window_in};
ghost use Rattle.subscriber.specs.Turning.{GivesWay, GoesOn, IsAgain, IsAhead, IsAnother, IsLoss, IsNext, IsUnheard};
ghost use Rattle.subscriber.specs.Windows.{AloneGetsAll, datagrams_of, room_of, whole_window, window_of};
ghost use Rattle.theory.specs.Image.{IsWindow};
ghost use Rattle.theory.specs.Position.{IsMtu, IsTermLength};
ghost use Rattle.theory.specs.Wire.{SETUP, spelling};

use crate::images::session::Session;
use crate::images::{Loss, loss_between};
use frames::{Frame, SETUP_LENGTH, Setup, write_frame};
use options::SubscribePlan;
use peer::end_told;
use position::Geometry;
use receiver::{ReceiverCore, Subscriber, judge};
use std::alloc::{AllocError, Global};
use std::net::SocketAddr;

/// The greatest message that any stream has, in bytes.
pub const GREATEST_MESSAGE: usize = 2_097_152;

/// The bytes of a receive buffer that a window may take: of the system's 212,992 three quarters, less an eighth of these.
const SURE_ROOM: u64 = 139_776;

/// An image that a SETUP opens: its session, its shape, and the position at which it is joined.
#[derive(Clone, Copy, Debug, PartialEq, Eq)]
pub struct ImageParams {
    pub session: i32,
    pub geometry: Geometry,
    pub position: u64,
}

impl ImageParams {
    /// Whether a SETUP that would open this one is the session's own, so that an image goes on that is rebuilt up to here.
    fn goes_on(&self, was: &ImageParams, rebuilt: u64) -> bool
        ensures { IsTrue result ↔ GoesOn was.now rebuilt self.now }
    {
        self.session == was.session && self.geometry == was.geometry && self.position >= rebuilt
    }
}

/// A SETUP, who sent it, and the image that it would open.
#[derive(Clone, Copy)]
pub struct SetupOffer {
    pub from: SocketAddr,
    pub setup: Setup,
    pub opening: ImageParams,
}

/// What would open by a SETUP that came from somebody.
pub fn meeting_of(plan: &SubscribePlan, from: SocketAddr, setup: &Setup) -> Option<SetupOffer>
    ensures found { IfSome result (IsMeeting plan.now from setup.now) }
    ensures none { IfNone result (OpensNothing plan.now (setup_of setup.now)) }
{
    let opening = opening_of(plan, setup)?;
    Some(SetupOffer {
        from,
        setup: *setup,
        opening,
    })
}

impl SetupOffer {
    /// Whether it is of the image's session, and another sent it than its peer.
    pub(crate) fn is_another(&self, session: &Session) -> bool
        ensures { IsTrue result ↔ IsAnother self.now session.now }
    {
        self.opening.session == session.opening.session && self.from != session.peer()
    }

    /// Whether it is of another session, which is to be told as not heard.
    pub(crate) fn is_unheard(&self, session: &Session) -> bool
        ensures { IsTrue result ↔ IsUnheard self.now session.now }
    {
        self.opening.session != session.opening.session
            && session.unheard.is_unnamed(self.opening.session)
    }

    /// Whether it is the next publisher's: of another session, or another sent it than the peer.
    fn is_next(&self, session: &Session) -> bool
        ensures { IsTrue result ↔ IsNext self.now session.now }
    {
        self.opening.session != session.opening.session || self.from != session.peer()
    }

    /// Whether it is the image's own, from its peer, and lies above what is rebuilt.
    fn is_ahead(&self, session: &Session, rebuilt: u64) -> bool
        ensures { IsTrue result ↔ IsAhead self.now rebuilt session.now }
    {
        !self.is_next(session)
            && self.opening.goes_on(&session.opening, rebuilt)
            && rebuilt < self.opening.position
    }

    /// Whether an image gives way to it: to the next publisher's where it has ended, else where it is silent or lost.
    pub(crate) fn takes_the_place(&self, session: &Session, rebuilt: u64) -> bool
        ensures { IsTrue result ↔ GivesWay self.now rebuilt session.now }
    {
        if session.ended {
            return self.is_next(session);
        }
        session.watch.is_silent() || (session.watch.is_behind() && self.is_ahead(session, rebuilt))
    }

    /// Whether it is the session's own again, which was silent and hasn't ended, where the image is rebuilt up to here.
    pub(crate) fn is_again(&self, session: &Session, rebuilt: u64) -> bool
        ensures { IsTrue result ↔ IsAgain self.now rebuilt session.now }
    {
        !session.ended
            && session.watch.is_silent()
            && self.opening.goes_on(&session.opening, rebuilt)
    }

    /// What is missing behind an image that gives way to it: where what it lacks didn't come, all between its consumer and this.
    pub(crate) fn loss_behind(&self, session: &Session) -> Option<Loss>
        ensures { IsLoss self.now session.now result }
    {
        if session.ended || !session.watch.is_behind() {
            return None;
        }
        loss_between(session.place(), self.opening.position)
    }
}

/// Whether the plan takes a session.
pub fn takes_session(plan: &SubscribePlan, session: i32) -> bool
    ensures { IsTrue result ↔ TakesSession plan.now.session session }
{
    match plan.session {
        None => true,
        Some(named) => session == named,
    }
}

/// A number of bytes, 0 for a negative one.
pub(crate) fn bytes_of(number: i32) -> u32
    ensures { result ≡ bytes_of number }
{
    u32::try_from(number).unwrap_or(0)
}

/// Whether a SETUP is of a stream that goes on: it tells no end.
pub(crate) fn is_ongoing(setup: &Setup) -> bool
    ensures { IsTrue result ↔ IsOngoing (setup_of setup.now) }
{
    match end_told(&Frame::Setup(*setup), setup.session, setup.stream) {
        None => true,
        Some(_) => false,
    }
}

/// Whether the plan takes a SETUP.
fn admits(plan: &SubscribePlan, setup: &Setup) -> bool
    ensures { IsTrue result ↔ Admits plan.now (setup_of setup.now) }
{
    if !takes_session(plan, setup.session) {
        return false;
    }
    if setup.stream != plan.end.stream {
        return false;
    }
    if bytes_of(setup.term_length) > plan.greatest_term {
        return false;
    }
    is_ongoing(setup)
}

/// What a datagram of at most so many bytes takes of the buffer.
fn room_of(mtu: u32) -> u64
    ensures value { result ≡ room_of mtu }
    ensures least { 1280 ≤ result }
{
    match mtu {
        0..=512 => 1_280,
        513..=1_536 => 2_304,
        1_537..=3_584 => 4_352,
        3_585..=7_680 => 8_448,
        7_681..=15_872 => 16_640,
        _ => 2 * u64::from(mtu) + 1_280,
    }
}

/// How many datagrams of at most so many bytes find room in it.
fn datagrams_of(mtu: u32) -> u64
    ensures value { result ≡ datagrams_of mtu }
    ensures few { result ≤ 109 }
{
    SURE_ROOM / room_of(mtu)
}

/// Half a term in bytes, or as much as a socket's buffer is sure to hold.
fn whole_window(term_length: u32, mtu: u32) -> u64
    ensures { result ≡ whole_window term_length mtu }
{
    let room = datagrams_of(mtu) * u64::from(mtu);
    u64::from(term_length / 2).min(room)
}

/// The window in bytes of one of so many images: its share of half a term, or of as much as their socket's buffer is sure to
/// hold, in whole units of 32 bytes, but a datagram at the least.
pub fn window_of(share: u64, term_length: u32, mtu: u32) -> u32
    ensures value { result ≡ window_of share term_length mtu }
    ensures allowed { IsTermLength term_length → IsMtu term_length mtu → IsWindow term_length mtu result }
{
    let shared = whole_window(term_length, mtu) / share.max(1) / 32 * 32;
    (shared as u32).max(mtu)
}

/// A law: one image alone has the whole window.
pub fn alone_gets_all()
    ensures { AloneGetsAll }
{}

/// The window of an image that a SETUP opens as one of so many.
pub(crate) fn window_in(share: u64, setup: &Setup) -> u32
    ensures { result ≡ window_in share (setup_of setup.now) }
{
    window_of(share, bytes_of(setup.term_length), bytes_of(setup.mtu))
}

/// The image that a SETUP opens for the plan, if it opens one.
pub fn opening_of(plan: &SubscribePlan, setup: &Setup) -> Option<ImageParams>
    ensures found { IfSome result (Opens plan.now (setup_of setup.now)) }
    ensures none { IfNone result (OpensNothing plan.now (setup_of setup.now)) }
{
    if !admits(plan, setup) {
        return None;
    }
    match judge(setup, window_in(1, setup)) {
        Ok((geometry, position)) => Some(ImageParams {
            session: setup.session,
            geometry,
            position,
        }),
        Err(_) => None,
    }
}

/// The receiver id of the image with this number.
pub fn id_of(plan: &SubscribePlan, number: u64) -> i64
    ensures { result ≡ id_of plan.now number }
{
    plan.receiver.wrapping_add_unsigned(number)
}

/// The datagram that a SETUP is.
fn datagram_of(setup: Setup) -> [u8; SETUP_LENGTH]
    ensures { result ≡ spelling (SETUP (setup_of setup)) }
{
    let mut datagram = [0; SETUP_LENGTH];
    write_frame(&Frame::Setup(setup), &mut datagram);
    datagram
}

/// The receiver that a SETUP invites to the image with this number, one of so many, which has met nothing.
fn invited(
    alloc: Global,
    plan: &SubscribePlan,
    number: u64,
    share: u64,
    setup: &Setup,
) -> ReceiverCore
    ensures shown { Represents result (invited plan.now number share (setup_of setup.now)) }
    ensures image { result.image ≡ None }
    ensures consumers { result.consumers ≡ 1 }
{
    ReceiverCore::new(
        alloc,
        setup.session,
        setup.stream,
        window_in(share, setup),
        id_of(plan, number),
        1,
    )
}

/// The subscriber to the image with this number, one of so many, that a SETUP opens at a moment, in nanoseconds.
pub fn opened(
    alloc: Global,
    plan: &SubscribePlan,
    number: u64,
    share: u64,
    setup: &Setup,
    now: u64,
) -> Result<Subscriber, AllocError>
    ensures { IfOk result (HasMet plan.now number share (setup_of setup.now) now) }
{
    let core = invited(alloc, plan, number, share, setup);
    let mut subscriber = Subscriber::new(alloc, core, GREATEST_MESSAGE);
    let datagram = datagram_of(*setup);
    subscriber.on_datagram(&datagram, now)?;
    Ok(subscriber)
}
