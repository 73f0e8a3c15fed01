//! What a subscriber makes of SETUPs.

ghost use Rattle.std.specs.Prelude.{◌≡◌, ◌<◌, ◌≤◌, ◌↔◌, IfErr, IfNone, IfSome, IsTrue, OnErr, OnOk, Some, length};
ghost use Rattle.std.specs.List.{AllZip};
ghost use Rattle.endpoint.specs.declared.device_error.DeviceError.TheVariants.{Memory};
ghost use Rattle.subscriber.specs.Apart.{AreApart};
ghost use Rattle.subscriber.specs.Choosing.{AttendsAll, IsChosen, IsEnded, IsFirst, IsItsOwn, IsNone, IsOldest, IsOver, IsPlaced, IsSilentNow, Joins, unheard_count};
ghost use Rattle.subscriber.specs.Leavings.{IsOpenFault};
ghost use Rattle.subscriber.specs.Losing.{AsksAnew, AsksEach};
ghost use Rattle.subscriber.specs.Places.{most_places};
ghost use Rattle.subscriber.specs.Receivings.{offer_given};
ghost use Rattle.subscriber.specs.Sessions.{share_of};
ghost use Rattle.subscriber.specs.Turning.{AttendsOwn, Considers, ConsidersOwn, IsRenewed, Replaces, TellsLoss, Turns};
ghost use Rattle.subscriber.specs.declared.fault.SubscribeFault.TheVariants.{Failed};

use crate::fault::SubscribeFault;
use crate::images::follower::Follower;
use crate::images::session::Session;
use crate::images::sessions::{Sessions, open_count, share_among, share_at};
use crate::images::{Loss, Seat, Unheard};
use crate::listening::join;
use crate::listening::reception::Reception;
use crate::listening::setup_offer::{SetupOffer, id_of, meeting_of, opened};
use crate::reporting::{Line, SessionId, tell};
use crate::subscription::Subscription;
use endpoint::DeviceError;
use frames::Setup;
use receiver::asking;
use std::io;
use std::io::Write;
use std::net::SocketAddr;

/// How many places are held at the most by sessions of which no frame has come yet.
const MOST_UNHEARD: usize = 8;

/// Tells what is missing between an image and the next one, if anything is.
fn tell_loss<E: Write>(errors: &mut E, session: i32, loss: Option<Loss>) -> io::Result<()>
    ensures { OnOk result (TellsLoss session loss (E.contents errors.old) (E.contents errors.new)) }
{
    match loss {
        None => Ok(()),
        Some(loss) => tell(errors, Line::Missing(SessionId(session), loss)),
    }
}

/// Which place a session gets.
#[derive(Clone, Copy, Debug, PartialEq, Eq)]
pub enum Chosen {
    /// Its own.
    Own(usize),
    /// That of another session, whose image is closed for it.
    Given(usize),
    /// One that nobody had before.
    Further,
    Nowhere,
}

/// The place of a session that is followed.
fn own_place(sessions: &[Session], session: i32) -> Option<usize>
    ensures found { IfSome result (IsFirst (IsItsOwn session) sessions.now) }
    ensures none { IfNone result (IsNone (IsItsOwn session) sessions.now) }
{
    sessions
        .iter()
        .position(|followed| followed.follower.opening.session == session)
}

/// The first place of a session whose stream ended more than a second ago.
fn first_over(sessions: &[Session]) -> Option<usize>
    ensures found { IfSome result (IsFirst IsOver sessions.now) }
    ensures none { IfNone result (IsNone IsOver sessions.now) }
{
    sessions.iter().position(|session| session.is_over())
}

/// The first place of a session whose stream has ended.
fn first_ended(sessions: &[Session]) -> Option<usize>
    ensures found { IfSome result (IsFirst IsEnded sessions.now) }
    ensures none { IfNone result (IsNone IsEnded sessions.now) }
{
    sessions.iter().position(|session| session.ended)
}

/// The first place of a silent session.
fn first_silent(sessions: &[Session]) -> Option<usize>
    ensures found { IfSome result (IsFirst IsSilentNow sessions.now) }
    ensures none { IfNone result (IsNone IsSilentNow sessions.now) }
{
    sessions
        .iter()
        .position(|session| session.watch.is_silent())
}

/// How many sessions weren't heard yet.
fn unheard_count(sessions: &[Session]) -> usize
    ensures { result ≡ unheard_count sessions.now }
{
    sessions
        .iter()
        .filter(|session| session.is_unheard())
        .count()
}

/// Whether a moment isn't later than another one, if there is another.
fn is_by(moment: u64, other: Option<u64>) -> bool
    ensures { IsTrue result ↔ IfSome other (λ n. moment ≤ n) }
{
    match other {
        None => true,
        Some(other) => moment <= other,
    }
}

/// The place of the one that was opened first of those that weren't heard yet.
fn oldest_unheard(sessions: &[Session]) -> usize
    requires { 0 < unheard_count sessions.now }
    ensures { IsOldest sessions.now result }
{
    let mut oldest = 0;
    let mut opened = None;
    for (place, session) in sessions.iter().enumerate() {
        if session.is_unheard() && is_by(session.opened, opened) {
            oldest = place;
            opened = Some(session.opened);
        }
    }
    oldest
}

impl Subscription<'_> {
    /// Asks the peer, at a frame, for a SETUP under the id of the next image, where what the image lacks doesn't come.
    pub(crate) fn ask_anew(&self, session: &Session, reception: &mut Reception)
        ensures asks { AsksAnew self.now.plan session.now reception.old.socket reception.new.socket }
        ensures same { reception.new ≡ record reception.old { socket = reception.new.socket } }
    {
        if session.ended || !session.watch.is_behind() || !session.watch.is_hearing() {
            return;
        }
        let Some(frame) = session.duty.device().notes().last else {
            return;
        };
        let next = session.images.next_number();
        let status = asking(&frame.header(), id_of(&self.plan, next));
        reception.ask(session.peer(), status);
    }

    /// So asks the peer of each of them, one after the other.
    pub(crate) fn ask_all(&self, sessions: &[Session], reception: &mut Reception)
        ensures asks { AsksEach self.now.plan sessions.now reception.old.socket reception.new.socket }
        ensures same { reception.new ≡ record reception.old { socket = reception.new.socket } }
    {
        let [first, others @ ..] = sessions else {
            return;
        };
        self.ask_anew(first, reception);
        self.ask_all(others, reception);
    }

    /// Opens a new image in the place of one, as one of so many, behind which this is missing.
    fn renew(
        &self,
        session: &mut Session,
        share: u64,
        meeting: &SetupOffer,
        loss: Option<Loss>,
    ) -> Result<(), SubscribeFault>
        ensures refused { IfErr result (λ fault. fault ≡ Failed Memory) }
        ensures renewed { OnOk result (IsRenewed self.now.plan share meeting.now loss session.old session.new) }
        ensures kept { OnErr result (session.new.follower.subscriber ≡ session.old.follower.subscriber) }
        ensures size { session.new.duty.mtu ≡ session.old.duty.mtu }
    {
        let images = session.images.next(loss, session.cut_behind(loss));
        let now = session.watch.moment();
        let setup = &meeting.setup;
        let subscriber = opened(self.alloc, &self.plan, images.number, share, setup, now)?;
        session.came = session.next_came(now);
        session.follower = Follower {
            subscriber,
            opening: meeting.opening,
            stream: self.plan.end.stream,
            end: None,
            heard: false,
        };
        session.images = images;
        session.opening = meeting.opening;
        session.lost = false;
        session.silent = false;
        session.warned = false;
        session.ended = false;
        session.unheard = Unheard::new();
        session.opened = now;
        session.watch.hear();
        session.watch.keep();
        let device = session.duty.device_mut();
        device.turn(meeting.from, meeting.opening.session);
        Ok(())
    }

    /// Closes an image, and opens the one that a SETUP opens in its place. What is missing between them is told.
    fn replace<E: Write>(
        &self,
        session: &mut Session,
        share: u64,
        meeting: &SetupOffer,
        errors: &mut E,
    ) -> Result<(), SubscribeFault>
        ensures refused { IfErr result (λ fault. fault ≡ Failed Memory) }
        ensures renewed { OnOk result (Replaces self.now.plan share meeting.now session.old session.new) }
        ensures kept { OnErr result (session.new.follower.subscriber ≡ session.old.follower.subscriber) }
        ensures size { session.new.duty.mtu ≡ session.old.duty.mtu }
    {
        let refused = session.follower.subscriber.refused();
        let id = SessionId(session.opening.session);
        let _ = tell(errors, Line::Closed(id, session.place(), refused));
        let loss = meeting.loss_behind(session);
        self.renew(session, share, meeting, loss)?;
        let id = SessionId(session.opening.session);
        let _ = tell(errors, Line::Joined(id, session.place()));
        let _ = tell_loss(errors, session.opening.session, loss);
        Ok(())
    }

    /// What is made of a SETUP that would open an image.
    fn turns<E: Write>(
        &self,
        session: &mut Session,
        share: u64,
        meeting: &SetupOffer,
        errors: &mut E,
    ) -> Result<(), SubscribeFault>
        ensures refused { IfErr result (λ fault. fault ≡ Failed Memory) }
        ensures turns { OnOk result (Turns self.now.plan share meeting.now session.old session.new) }
        ensures kept { OnErr result (session.new.follower.subscriber ≡ session.old.follower.subscriber) }
        ensures size { session.new.duty.mtu ≡ session.old.duty.mtu }
    {
        let rebuilt = session.rebuilt();
        if !meeting.takes_the_place(session, rebuilt) {
            let _ = session.warn(meeting, errors);
            return Ok(());
        }
        if meeting.is_again(session, rebuilt) {
            session.duty.device_mut().tie(meeting.from);
            return Ok(());
        }
        self.replace(session, share, meeting, errors)
    }

    /// What is made of a SETUP, which this one sent.
    fn consider<E: Write>(
        &self,
        session: &mut Session,
        share: u64,
        offer: (SocketAddr, Setup),
        errors: &mut E,
    ) -> Result<(), SubscribeFault>
        ensures refused { IfErr result (λ fault. fault ≡ Failed Memory) }
        ensures considers { OnOk result (Considers self.now.plan share offer.0 offer.1 session.old session.new) }
        ensures kept { OnErr result (session.new.follower.subscriber ≡ session.old.follower.subscriber) }
        ensures size { session.new.duty.mtu ≡ session.old.duty.mtu }
    {
        match meeting_of(&self.plan, offer.0, &offer.1) {
            None => Ok(()),
            Some(meeting) => self.turns(session, share, &meeting, errors),
        }
    }

    /// What is made of a SETUP of its peer's: nothing, where it names another session.
    fn consider_own<E: Write>(
        &self,
        session: &mut Session,
        share: u64,
        setup: Setup,
        errors: &mut E,
    ) -> Result<(), SubscribeFault>
        ensures refused { IfErr result (λ fault. fault ≡ Failed Memory) }
        ensures considers { OnOk result (ConsidersOwn self.now.plan share (Some setup) session.old session.new) }
        ensures kept { OnErr result (session.new.follower.subscriber ≡ session.old.follower.subscriber) }
        ensures size { session.new.duty.mtu ≡ session.old.duty.mtu }
    {
        if setup.session != session.follower.opening.session {
            return Ok(());
        }
        self.consider(session, share, (session.peer(), setup), errors)
    }

    /// What is made of its peer's own SETUP, the last that came since the turn before, if one did.
    fn attend_own<E: Write>(
        &self,
        session: &mut Session,
        share: u64,
        errors: &mut E,
    ) -> Result<(), SubscribeFault>
        ensures refused { IfErr result (λ fault. fault ≡ Failed Memory) }
        ensures attends { OnOk result (AttendsOwn self.now.plan share session.old session.new) }
        ensures kept { OnErr result (session.new.follower.subscriber ≡ session.old.follower.subscriber) }
        ensures size { session.new.duty.mtu ≡ session.old.duty.mtu }
    {
        if let Some(setup) = session.duty.device_mut().take_setup() {
            self.consider_own(session, share, setup, errors)?;
        }
        session.watch.attend();
        Ok(())
    }

    /// What is made of each session's own.
    fn attend_each<E: Write>(
        &self,
        sessions: &mut [Session],
        errors: &mut E,
    ) -> Result<(), SubscribeFault>
        ensures refused { IfErr result (λ fault. fault ≡ Failed Memory) }
        ensures attends { OnOk result (AllZip (λ j k. AttendsOwn self.now.plan (share_of sessions.old j) j k) sessions.old sessions.new) }
    {
        let open = open_count(sessions);
        let places = sessions.len() as u64;
        for session in sessions.iter_mut() {
            let share = share_among(open, places, session.ended);
            self.attend_own(session, share, errors)?;
        }
        Ok(())
    }

    /// Which place a session gets. One that is followed has its own. Else, where eight are held by sessions that weren't heard
    /// yet, it gets the oldest of those; or else one whose stream ended more than a second ago, a further one while there is one,
    /// one whose stream has ended, or one that is silent; else none.
    pub(crate) fn choose(&self, sessions: &[Session], session: i32) -> Chosen
        ensures { IsChosen self.now.plan session sessions.now result }
    {
        if let Some(place) = own_place(sessions, session) {
            return Chosen::Own(place);
        }
        if unheard_count(sessions) >= MOST_UNHEARD {
            return Chosen::Given(oldest_unheard(sessions));
        }
        if let Some(place) = first_over(sessions) {
            return Chosen::Given(place);
        }
        if sessions.len() < self.most_places() {
            return Chosen::Further;
        }
        if let Some(place) = first_ended(sessions) {
            return Chosen::Given(place);
        }
        match first_silent(sessions) {
            Some(place) => Chosen::Given(place),
            None => Chosen::Nowhere,
        }
    }

    /// Opens an image at a further place.
    fn open_further<E: Write>(
        &self,
        sessions: &mut Sessions,
        meeting: &SetupOffer,
        now: u64,
        errors: &mut E,
    ) -> Result<(), SubscribeFault>
        requires { length sessions.old.list.items < 16 }
        ensures refused { IfErr result IsOpenFault }
        ensures joins { OnOk result (Joins self.now.plan meeting.now now sessions.old.list.items sessions.new.list.items) }
        ensures same { sessions.new.reception ≡ sessions.old.reception }
    {
        let seat = Seat {
            place: sessions.list.len(),
            share: open_count(sessions.list.as_slice()) + 1,
        };
        let session = join(
            self.alloc,
            &self.plan,
            seat,
            &sessions.reception,
            meeting,
            now,
        )?;
        let id = SessionId(session.opening.session);
        let at = session.place();
        if sessions.list.push(session).is_err() {
            return Err(SubscribeFault::Failed(DeviceError::Memory));
        }
        let _ = tell(errors, Line::Joined(id, at));
        Ok(())
    }

    /// What is made of a SETUP that no session's peer sent.
    fn place_offer<E: Write>(
        &self,
        sessions: &mut Sessions,
        meeting: &SetupOffer,
        now: u64,
        errors: &mut E,
    ) -> Result<(), SubscribeFault>
        requires few { length sessions.old.list.items ≤ most_places self.now.plan }
        requires some { 0 < length sessions.old.list.items }
        requires apart { AreApart sessions.old.list.items }
        ensures refused { IfErr result IsOpenFault }
        // No two places have the same session.
        ensures apart { OnOk result (AreApart sessions.new.list.items) }
        ensures placed { OnOk result (IsPlaced self.now.plan meeting.now now sessions.old.list.items sessions.new.list.items) }
        ensures few { OnOk result (length sessions.new.list.items ≤ most_places self.now.plan) }
        ensures same { sessions.new.reception ≡ sessions.old.reception }
    {
        match self.choose(sessions.list.as_slice(), meeting.opening.session) {
            Chosen::Further => self.open_further(sessions, meeting, now, errors),
            Chosen::Own(place) => {
                let share = share_at(sessions.list.as_slice(), place);
                self.turns(&mut sessions.list[place], share, meeting, errors)
            }
            Chosen::Given(place) => {
                let share = share_at(sessions.list.as_slice(), place);
                self.replace(&mut sessions.list[place], share, meeting, errors)
            }
            Chosen::Nowhere => {
                let _ = sessions.list[0].warn(meeting, errors);
                Ok(())
            }
        }
    }

    /// What is made of the SETUPs that came since the turn before: each session's own, and the first that is kept of others.
    pub(crate) fn attend<E: Write>(
        &self,
        sessions: &mut Sessions,
        now: u64,
        errors: &mut E,
    ) -> Result<(), SubscribeFault>
        requires few { length sessions.old.list.items ≤ most_places self.now.plan }
        requires some { 0 < length sessions.old.list.items }
        requires apart { AreApart sessions.old.list.items }
        ensures refused { IfErr result IsOpenFault }
        // No two places have the same session.
        ensures apart { OnOk result (AreApart sessions.new.list.items) }
        ensures attends { OnOk result (AttendsAll self.now.plan now sessions.old.reception.offer sessions.old.list.items sessions.new.list.items) }
        ensures left { OnOk result (sessions.new.reception ≡ offer_given sessions.old.reception) }
        ensures few { OnOk result (length sessions.new.list.items ≤ most_places self.now.plan) }
    {
        self.attend_each(sessions.list.as_mut_slice(), errors)?;
        let Some((from, setup)) = sessions.reception.take_offer() else {
            return Ok(());
        };
        match meeting_of(&self.plan, from, &setup) {
            None => Ok(()),
            Some(meeting) => self.place_offer(sessions, &meeting, now, errors),
        }
    }
}
