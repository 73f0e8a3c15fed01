//! A subscriber without an image.

ghost use Rattle.std.specs.Prelude.{◌≡◌, ◌<◌, Option, IfErr, IfNone, IfOk, IfSome, OnOk, option_map};
ghost use Rattle.std.specs.Io.KnownBytes.{Appends};
ghost use Rattle.theory.specs.Control.{asking_at};
ghost use Rattle.theory.specs.Wire.{IsHeader, SM};
ghost use Rattle.loss_injector.specs.Losing.{begun};
ghost use Rattle.peer.specs.Patience.{patient};
ghost use Rattle.peer.specs.Peers.{sending_to};
ghost use Rattle.subscriber.specs.Hearings.{following};
ghost use Rattle.frames.specs.Frames.{header_of, setup_of, status_of};
ghost use Rattle.subscriber.specs.Calls.{Heeds, IsCall, IsFrameCall, IsJoined, IsJoinedBy, IsSetupCall};
ghost use Rattle.subscriber.specs.Faults.{IsListenFault};
ghost use Rattle.subscriber.specs.Leavings.{IsOpenFault};
ghost use Rattle.subscriber.specs.Meetings.{Opens, OpensNothing, id_of};
ghost use Rattle.subscriber.specs.Texts.{TellsUntaken, waiting_counts, waiting_line};
ghost use Rattle.subscriber.specs.Watches.{GivesNotice, HasWaited, IsAllTold, TellsWhereDue};
ghost use Rattle.subscriber.specs.declared.listening.untaken.UntakenSetup.{UntakenSetup};

pub(crate) mod first_frame;
pub(crate) mod reception;
pub(crate) mod setup_offer;
pub(crate) mod untaken;

use crate::fault::SubscribeFault;
use crate::images::follower::Follower;
use crate::images::session::{Session, Stand};
use crate::images::session_device::{SessionDevice, SubscriberDevice};
use crate::images::session_watch::SessionWatch;
use crate::images::{Images, Seat, Unheard};
use crate::listening::first_frame::first_frame;
use crate::listening::reception::Reception;
use crate::listening::setup_offer::{SetupOffer, id_of, meeting_of, opened, takes_session};
use crate::listening::untaken::{UntakenSetup, untaken_of};
use crate::reporting::{Counted, Counts, Line, NOWHERE, tell as tell_line};
use crate::watch::Watch;
use agents::{Duty, IdleStrategy, REPLY};
use endpoint::DeviceError;
use frames::{FaultCounts, Header, Setup, Status};
use loss_injector::Lossy;
use options::SubscribePlan;
use peer::PatientDevice;
use receiver::asking;
use std::alloc::Global;
use std::io;
use std::io::Write;
use std::net::SocketAddr;
use std::sync::Wait;
use std::time::Clock;

/// What a datagram is to a subscriber without an image.
#[derive(Clone, Copy)]
pub(crate) enum Call {
    /// A SETUP that opens an image.
    Opens(SetupOffer),
    /// A SETUP that the plan doesn't take.
    Untaken(UntakenSetup),
    /// A frame of a stream that the plan takes, by its header: a SETUP is asked for.
    Asks(Header),
    /// Anything else.
    Stranger,
}

/// What a frame of a stream is, by its header.
fn frame_call(plan: &SubscribePlan, header: Option<Header>) -> Call
    requires legal { IfSome header (λ h. IsHeader (header_of h)) }
    ensures { IsFrameCall plan.now (option_map header_of header) result }
{
    match header {
        Some(header) if header.stream == plan.end.stream && takes_session(plan, header.session) => {
            Call::Asks(header)
        }
        _ => Call::Stranger,
    }
}

/// What a SETUP is that opens no image, and that this one sent.
fn untaken_call(plan: &SubscribePlan, from: SocketAddr, setup: &Setup) -> Call
    requires { OpensNothing plan.now (setup_of setup.now) }
    ensures { IsSetupCall plan.now from setup.now result }
{
    match untaken_of(plan, from, setup) {
        None => Call::Stranger,
        Some(untaken) => Call::Untaken(untaken),
    }
}

/// What a datagram is that this one sent.
fn call_of(plan: &SubscribePlan, from: SocketAddr, datagram: &[u8]) -> Call
    ensures { IsCall plan.now from datagram.now result }
{
    let first = first_frame(datagram);
    match first.setup() {
        None => frame_call(plan, first.header()),
        Some(setup) => match meeting_of(plan, from, &setup) {
            None => untaken_call(plan, from, &setup),
            Some(meeting) => Call::Opens(meeting),
        },
    }
}

/// The message by which the first image's receiver asks for a SETUP, with the place of a frame.
fn first_asking(plan: &SubscribePlan, header: &Header) -> Status
    requires { IsHeader (header_of header.now) }
    ensures { SM 128 (status_of result) ≡ asking_at (header_of header.now) (id_of plan.now 0) }
{
    asking(header, id_of(plan, 0))
}

/// Heeds what came. The answer is the SETUP that opens an image, if it was one. The sender of a frame is asked for a SETUP.
fn heed(plan: &SubscribePlan, reception: &mut Reception, watch: &mut Watch) -> Option<SetupOffer>
    ensures heeds { Heeds plan.now reception.old.socket.came (record { socket = reception.old.socket; seen = watch.old }) result (record { socket = reception.new.socket; seen = watch.new }) }
    ensures opens { IfSome result (λ m. Opens plan.now (setup_of m.setup) m.opening) }
    ensures moment { watch.new.moment ≡ watch.old.moment }
{
    let (from, datagram) = reception.last()?;
    match call_of(plan, from, datagram) {
        Call::Opens(meeting) => {
            watch.hear();
            Some(meeting)
        }
        Call::Untaken(untaken) => {
            watch.note_untaken(untaken);
            None
        }
        Call::Asks(header) => {
            watch.call();
            reception.ask(from, first_asking(plan, &header));
            None
        }
        Call::Stranger => {
            watch.count_stranger();
            None
        }
    }
}

/// A device that sends to the one who sent the SETUP.
fn session_duty(
    alloc: Global,
    plan: &SubscribePlan,
    reception: &Reception,
    meeting: &SetupOffer,
) -> Result<Duty<SubscriberDevice>, SubscribeFault>
    ensures refused { IfErr result IsOpenFault }
    ensures made { IfOk result (λ d. d ≡ record { device = following (begun (patient (sending_to meeting.now.from)) plan.now.end.rates plan.now.end.seed) meeting.now.opening.session plan.now.end.stream; mtu = 40 }) }
{
    let peer = match reception.peer_device(meeting.from) {
        Ok(device) => PatientDevice::new(device),
        Err(error) => return Err(SubscribeFault::NoSocket(error.raw_os_error())),
    };
    let lossy = Lossy::new(alloc, peer, plan.end.rates, plan.end.seed);
    let device = SessionDevice::new(alloc, lossy, meeting.opening.session, plan.end.stream);
    match Duty::new(alloc, device, REPLY) {
        Ok(duty) => Ok(duty),
        Err(_) => Err(SubscribeFault::Failed(DeviceError::Memory)),
    }
}

/// Opens the first image of a place, whose peer is the one who sent the SETUP.
pub(crate) fn join(
    alloc: Global,
    plan: &SubscribePlan,
    seat: Seat,
    reception: &Reception,
    meeting: &SetupOffer,
    now: u64,
) -> Result<Session, SubscribeFault>
    requires { seat.place < 16 }
    ensures refused { IfErr result IsOpenFault }
    ensures joined { IfOk result (IsJoinedBy plan.now seat.place seat.share now meeting.now) }
{
    let images = Images::first(seat.place);
    let setup = &meeting.setup;
    let subscriber = opened(alloc, plan, images.number, seat.share, setup, now)?;
    let duty = session_duty(alloc, plan, reception, meeting)?;
    Ok(Session {
        opening: meeting.opening,
        images,
        follower: Follower {
            subscriber,
            opening: meeting.opening,
            stream: plan.end.stream,
            end: None,
            heard: false,
        },
        duty,
        watch: SessionWatch::new(now),
        lost: false,
        silent: false,
        warned: false,
        ended: false,
        unheard: Unheard::new(),
        opened: now,
        came: now,
        stood: Stand {
            place: meeting.opening.position,
            rebuilt: meeting.opening.position,
            end: None,
        },
    })
}

/// Tells the counters, once a second.
fn tell<E: Write>(plan: &SubscribePlan, errors: &mut E, watch: &mut Watch) -> io::Result<()>
    ensures same { watch.new ≡ record watch.old { told = watch.new.told; written = watch.new.written } }
    ensures tells { TellsWhereDue plan.now 0 watch.old watch.new (OnOk result (Appends (E.contents errors.old) (E.contents errors.new) (waiting_line (waiting_counts watch.old)))) (OnOk result (E.contents errors.new ≡ E.contents errors.old)) }
{
    let counts = Counts {
        messages: 0,
        since: 0,
        naks: 0,
        lost: watch.lost(),
        strangers: watch.strangers(),
        refused: FaultCounts::new(),
    };
    match watch.tells(plan, 0) {
        None => Ok(()),
        Some(_) => tell_line(errors, Line::Waiting(Counted(NOWHERE, counts))),
    }
}

/// Tells once which SETUP came that the plan doesn't take, the first one, and why: a second behind it, or where what it waits for
/// hasn't come for as long as the plan says.
fn tell_untaken<E: Write>(plan: &SubscribePlan, errors: &mut E, watch: &mut Watch) -> io::Result<()>
    ensures same { watch.new ≡ record watch.old { notice = watch.new.notice } }
    ensures tells { (found : Option UntakenSetup) × GivesNotice plan.now watch.old.notice watch.old found watch.new × OnOk result (TellsUntaken found (E.contents errors.old) (E.contents errors.new)) }
{
    match watch.take_untaken(plan) {
        None => Ok(()),
        Some(untaken) => tell_line(errors, Line::NotTaken(untaken)),
    }
}

/// Listens until a SETUP opens an image for the plan. There is none where no datagram came that the plan takes for as long as
/// it says. The fault is that memory or a handle of the socket was refused, the clock can't be read, or every call of the socket
/// failed for 5 seconds.
pub fn listen<R: Wait + Clock, E: Write>(
    rt: &R,
    alloc: Global,
    plan: &SubscribePlan,
    reception: &mut Reception,
    errors: &mut E,
    watch: &mut Watch,
) -> Result<Option<Session>, SubscribeFault>
    ensures joined { IfOk result (λ found. IfSome found (IsJoined plan.now 0 1 watch.new.moment)) }
    ensures quiet { IfOk result (λ found. IfNone found (HasWaited plan.now watch.new)) }
    // Where a SETUP came that the plan doesn't take, that was told.
    ensures told { IfOk result (λ found. IfNone found (IsAllTold watch.new.notice)) }
    ensures caused { IfErr result (λ fault. IsListenFault plan.now fault reception.new.socket) }
    // For each datagram that calls for a SETUP its sender was asked.
    ensures asks { reception.old.socket.asks ≡ watch.old.calls → OnOk result (reception.new.socket.asks ≡ watch.new.calls) }
{
    let mut idle = IdleStrategy::new();
    for _ in rt.forever() {
        watch.see(rt)?;
        reception.hear(watch);
        let came = reception.last().is_some();
        if let Some(meeting) = heed(plan, reception, watch) {
            return Ok(Some(join(
                alloc,
                plan,
                Seat::FIRST,
                reception,
                &meeting,
                watch.moment(),
            )?));
        }
        let _ = tell(plan, errors, watch);
        let _ = tell_untaken(plan, errors, watch);
        watch.check_works()?;
        if watch.is_quiet(plan) {
            return Ok(None);
        }
        idle.after(rt, came);
    }
    unreachable!()
}
