//! What a subscriber follows, and the socket by which it hears that.

ghost use Rattle.std.specs.Prelude.{◌≡◌, ◌<◌, ◌≤◌, ◌+◌, [], ◌∷◌, if◌then◌else◌, length, map, max, min, IfOk, OnOk};
ghost use Rattle.std.specs.List.{AllByRecursion, AllZip};
ghost use Rattle.subscriber.specs.Answering.{BidsFarewell, TellsPlace};
ghost use Rattle.subscriber.specs.Routing.{ReadsSocket};
ghost use Rattle.subscriber.specs.Sessions.{HasLeft, IsRouted, IsShareAt, IsSized, open_count, turn_begun};

use crate::fault::SubscribeFault;
use crate::images::session::Session;
use crate::listening::reception::{Read, Reception};
use crate::watch::Watch;
use agents::IdleStrategy;
use options::SECOND;
use std::alloc::{AllocError, Global};
use std::sync::Wait;
use std::time::Clock;

/// How long a subscriber that has ended still tells where it stands, in nanoseconds.
const FAREWELL: u64 = SECOND;

/// How many datagrams are read in a turn at the most.
const MOST_READ: u32 = 272;

/// The sessions that are followed, each at its place, and the socket.
#[derive(Drop)]
pub struct Sessions {
    pub list: Vec<Session>,
    pub reception: Reception,
}

/// How many images are open: those whose streams haven't ended.
pub(crate) fn open_count(sessions: &[Session]) -> u64
    ensures { result ≡ open_count sessions.now }
{
    sessions.iter().filter(|session| !session.ended).count() as u64
}

/// Of how many images a session's next one is one, where so many are open, at so many places.
pub(crate) fn share_among(images: u64, places: u64, ended: bool) -> u64
    ensures { result ≡ max 1 (min places (if ended then images + 1 else images)) }
{
    let share = if ended {
        images.saturating_add(1)
    } else {
        images
    };
    share.min(places).max(1)
}

/// Of how many images the next one at this place is one.
pub(crate) fn share_at(sessions: &[Session], place: usize) -> u64
    requires { place < length sessions.now }
    ensures { IsShareAt sessions.now place result }
{
    share_among(
        open_count(sessions),
        sessions.len() as u64,
        sessions[place].ended,
    )
}

/// Whether one of them has as much to take as it takes in a cycle.
fn is_any_full(sessions: &[Session]) -> bool {
    sessions
        .iter()
        .any(|session| session.duty.device().is_full())
}

/// A turn of each session begins at a moment.
fn begin_each(sessions: &mut [Session], now: u64)
    ensures { sessions.new ≡ map (turn_begun now) sessions.old }
{
    for session in sessions.iter_mut() {
        session.watch.begin_turn(now);
    }
}

impl Sessions {
    /// The first session alone.
    pub(crate) fn new(
        alloc: Global,
        first: Session,
        reception: Reception,
    ) -> Result<Sessions, AllocError>
        ensures { IfOk result (λ s. (s.list.items ≡ first ∷ []) × (s.reception ≡ reception)) }
    {
        let mut list = Vec::new(alloc);
        if list.push(first).is_err() {
            return Err(AllocError);
        }
        Ok(Sessions { list, reception })
    }

    /// A turn of each begins at a moment.
    pub(crate) fn begin_turn(&mut self, now: u64)
        ensures each { self.new.list.items ≡ map (turn_begun now) self.old.list.items }
        ensures reception { self.new.reception ≡ self.old.reception }
    {
        begin_each(self.list.as_mut_slice(), now);
    }

    /// Reads the socket, and gives what came to the session whose it is, until nothing has come, as much is one session's as it
    /// takes in a cycle, or 272 datagrams came. Whether any was nobody's. Where memory is refused a datagram is lost.
    pub(crate) fn read(&mut self, alloc: Global, watch: &mut Watch) -> Result<bool, AllocError>
        ensures reads { OnOk result (ReadsSocket (record { sessions = self.old.list.items; socket = self.old.reception; seen = watch.old }) (record { sessions = self.new.list.items; socket = self.new.reception; seen = watch.new })) }
        ensures kept { AllZip IsRouted self.old.list.items self.new.list.items }
        ensures moment { watch.new.moment ≡ watch.old.moment }
    {
        let mut passed = false;
        for _ in 0..MOST_READ {
            if is_any_full(self.list.as_slice()) {
                return Ok(passed);
            }
            self.reception.hear(watch);
            let list = self.list.as_mut_slice();
            match self.reception.route(alloc, list, watch)? {
                Read::Nothing => return Ok(passed),
                Read::Routed => {}
                Read::Passed => passed = true,
            }
        }
        Ok(passed)
    }
}

/// Tells each where the subscriber stands, at a moment. Whether any was busy.
fn tell_places(sessions: &mut [Session], now: u64) -> Result<bool, SubscribeFault>
    requires { AllByRecursion IsSized sessions.old }
    ensures size { AllByRecursion IsSized sessions.new }
    ensures left { AllZip HasLeft sessions.old sessions.new }
    ensures told { OnOk result (AllZip (λ j k. TellsPlace now j.follower.subscriber k.follower.subscriber) sessions.old sessions.new) }
{
    let mut busy = false;
    for session in sessions.iter_mut() {
        busy |= session.tell_place(now)?;
    }
    Ok(busy)
}

/// Tells each for a second where the subscriber stands, at once and each 200 ms, and polls nothing more.
pub(crate) fn bid_farewell<R: Wait + Clock>(
    rt: &R,
    sessions: &mut [Session],
    watch: &mut Watch,
) -> Result<(), SubscribeFault>
    requires { AllByRecursion IsSized sessions.old }
    ensures left { AllZip HasLeft sessions.old sessions.new }
    ensures farewell { OnOk result (AllZip (λ j k. BidsFarewell j.follower.subscriber watch.old.moment k.follower.subscriber watch.new.moment) sessions.old sessions.new) }
{
    watch.see(rt)?;
    let ended = watch.moment();
    let mut idle = IdleStrategy::new();
    for _ in rt.forever() {
        let busy = tell_places(sessions, watch.moment())?;
        watch.see(rt)?;
        if watch.moment().saturating_sub(ended) >= FAREWELL {
            return Ok(());
        }
        idle.after(rt, busy);
    }
    unreachable!()
}
