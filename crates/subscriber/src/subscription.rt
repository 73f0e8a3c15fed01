//! A subscription from its begin to its end.

ghost use Rattle.std.specs.Prelude.{◌≡◌, ◌≢◌, ◌<◌, ◌≤◌, ◌-◌, ◌/◌, ◌↔◌, ℤ, Option, false, length, map, IfErr, IfOk, IsTrue, OnErr, OnOk, Some};
ghost use Rattle.std.specs.Io.KnownBytes.{Appends};
ghost use Rattle.std.specs.List.{AllByRecursion, AllZip};
ghost use Rattle.endpoint.specs.declared.device_error.DeviceError.TheVariants.{Device};
ghost use Rattle.peer.specs.StatusSockets.{unused};
ghost use Rattle.peer.specs.declared.fault.BindError.{BindError};
ghost use Rattle.subscriber.specs.Apart.{AreApart};
ghost use Rattle.subscriber.specs.Answering.{IsTicked};
ghost use Rattle.subscriber.specs.Attending.{AnswersTurn};
ghost use Rattle.subscriber.specs.Breaking.{BreaksActs, BreaksPlaces};
ghost use Rattle.subscriber.specs.Endings.{AreDone, AreQuiet, EndsWithSessions, HasEnded, HasEnoughOfAll, HasStood, IsDone, IsEndingOfAll, have_lost};
ghost use Rattle.subscriber.specs.Faults.{IsCycleFault, IsFollowFault, IsOnesFault, IsRunFault, IsSubscribeFault, IsTurnFault};
ghost use Rattle.subscriber.specs.Leavings.{IsOpenFault, IsQuietEnding, NotesHeard, enough_ending, of_bind};
ghost use Rattle.subscriber.specs.Living.{FollowsAll, LivesOn, Writes, WritesPlaces};
ghost use Rattle.subscriber.specs.Losing.{AsksEach};
ghost use Rattle.subscriber.specs.Places.{most_places};
ghost use Rattle.subscriber.specs.Sessions.{BreaksOffFrom, FollowsOn, HasLeft, HasLooked, AreSettled, IsBegun, IsSettledSo, IsSized, LeavesAll, news_told};
ghost use Rattle.subscriber.specs.Standing.{HasAll};
ghost use Rattle.subscriber.specs.Telling.{TellsCounters};
ghost use Rattle.subscriber.specs.Texts.{nobody_line};
ghost use Rattle.subscriber.specs.Watches.{AttendsEach, IsWithinTurn, JudgesEach, TellsWhereDue};
ghost use Rattle.subscriber.specs.declared.ending.Ending.TheVariants.{Short};
ghost use Rattle.subscriber.specs.declared.fault.SubscribeFault.TheVariants.{Failed};

pub(crate) mod callers;
pub(crate) mod offers;

use crate::ending::{Ending, Subscribed};
use crate::fault::SubscribeFault;
use crate::images::delivery::{CYCLE_MESSAGES, cycle};
use crate::images::session::{Session, Stand};
use crate::images::sessions::{Sessions, bid_farewell};
use crate::listening::listen;
use crate::listening::reception::Reception;
use crate::repeating::repeater::StatusRepeater;
use crate::repeating::{Repeating, Slots};
use crate::reporting::sessions::{tell_counters_of, tell_ending_of, tell_refused_of, totals_of};
use crate::reporting::{Line, SessionId, tell, tell_refused, tell_totals};
use crate::watch::Watch;
use agents::{IdleStrategy, REPLY};
use endpoint::{Binding, DeviceError};
use frames::FaultCounts;
use options::{SECOND, SubscribePlan};
use peer::{BindError, Listener, StatusSocket};
use std::alloc::Global;
use std::io;
use std::io::Write;
use std::net::{Net, SocketAddr};
use std::sync::Wait;
use std::thread::Threads;
use std::time::{Clock, Instant};

/// How many places there are at the most.
const MOST_PLACES: u32 = 16;

/// What a subscriber is to do, and with what.
#[derive(Drop)]
pub(crate) struct Subscription<'a> {
    pub(crate) alloc: Global,
    pub(crate) plan: SubscribePlan,
    /// Where the thread that repeats status messages is told something of each place.
    slots: &'a Slots,
}

/// Why there is no listener at this address.
fn fault_of(address: SocketAddr, error: BindError) -> SubscribeFault
    ensures { result ≡ of_bind address error }
{
    match error {
        BindError::Taken => SubscribeFault::Taken(address),
        BindError::NotHere => SubscribeFault::NotHere(address),
        BindError::Refused(number) => SubscribeFault::NoSocket(number),
        BindError::Memory => SubscribeFault::Failed(DeviceError::Memory),
    }
}

/// A listener that is bound so.
fn bind<R: Net>(rt: &R, alloc: Global, binding: &Binding) -> Result<Listener, SubscribeFault>
    ensures { IfErr result (λ fault. (error : BindError) × (fault ≡ of_bind binding.now.address error)) }
{
    match Listener::bind(rt, alloc, binding) {
        Ok(listener) => Ok(listener),
        Err(error) => Err(fault_of(binding.address, error)),
    }
}

/// A second handle of its socket.
fn second_handle(listener: &Listener) -> Result<StatusSocket, SubscribeFault>
    ensures same { IfOk result (λ s. s ≡ unused) }
    ensures refused { IfErr result (λ fault. (number : Option ℤ) × (fault ≡ SubscribeFault.NoSocket number)) }
{
    match listener.status_socket() {
        Ok(socket) => Ok(socket),
        Err(error) => Err(SubscribeFault::NoSocket(error.raw_os_error())),
    }
}

/// How a subscriber ends that has enough: whole, but where an image was lost.
fn enough_ending(lost: bool) -> Ending
    ensures { result ≡ enough_ending lost }
{
    if lost { Ending::Lost } else { Ending::Whole }
}

/// Whether each has all of its stream, as far as it was heard at all.
fn is_each_done(sessions: &[Session]) -> bool
    ensures { IsTrue result ↔ AllByRecursion IsDone sessions.now }
{
    sessions.iter().all(|session| session.is_done())
}

/// Whether none has all of its stream.
fn is_none_whole(sessions: &[Session]) -> bool
    ensures { IsTrue result ↔ AllByRecursion (λ j. ¬ HasAll j.stood) sessions.now }
{
    sessions.iter().all(|session| !session.stood.has_all())
}

/// Whether none came for a second.
fn are_settling(sessions: &[Session]) -> bool
    ensures { IsTrue result ↔ AllByRecursion (λ j. 1000000000 ≤ j.watch.moment - j.came) sessions.now }
{
    sessions.iter().all(|session| session.is_settling())
}

/// Whether all are quiet.
fn are_quiet(sessions: &[Session], plan: &SubscribePlan) -> bool
    ensures { IsTrue result ↔ AreQuiet plan.now sessions.now }
{
    sessions.iter().all(|session| session.watch.is_quiet(plan))
}

/// Whether each session that was heard has all of its stream, one at the least, and no other came for a second.
fn are_done(sessions: &[Session]) -> bool
    ensures { IsTrue result ↔ AreDone sessions.now }
{
    is_each_done(sessions)
        && !is_none_whole(sessions)
        && (sessions.len() == 1 || are_settling(sessions))
}

/// Whether one that stands so has all of its stream, and was quiet since.
fn is_settled(session: &Session, stand: &Stand, plan: &SubscribePlan) -> bool
    ensures { IsTrue result ↔ IsSettledSo plan.now session.now stand.now }
{
    stand.has_all() && session.watch.is_quiet(plan)
}

/// Whether each has all of its stream, and was quiet since.
fn are_settled(sessions: &[Session], plan: &SubscribePlan) -> bool
    ensures { AreSettled plan.now sessions.now result }
{
    match sessions {
        [] => true,
        [first, others @ ..] => {
            let rest = are_settled(others, plan);
            is_settled(first, &first.stand(), plan) & rest
        }
    }
}

/// Whether one of them has lost an image.
fn have_lost(sessions: &[Session]) -> bool
    ensures { result ≡ have_lost sessions.now }
{
    sessions.iter().any(|session| session.has_lost())
}

impl Subscription<'_> {
    /// A cycle. The answer is how many messages were written in all, and whether there was work: messages, or an image that
    /// got further. Heartbeats and answers to them are none, so that the thread rests between them.
    fn cycle_once<W: Write>(
        &self,
        session: &mut Session,
        output: &mut W,
        written: u64,
    ) -> Result<(u64, bool), SubscribeFault>
        requires size { session.old.duty.mtu ≡ REPLY }
        requires few { written ≤ self.now.plan.messages }
        ensures size { session.new.duty.mtu ≡ REPLY }
        // No fault of the socket ends it.
        ensures patient { IfErr result (λ fault. fault ≢ Failed Device) }
        ensures caused { IfErr result (λ fault. IsCycleFault self.now.plan.end.form fault session.new.follower.subscriber (W.contents output.new)) }
        ensures heard { OnOk result (NotesHeard session.old.duty.device.notes.frames session.new.duty.device.notes.frames session.old.watch session.new.watch) }
        ensures writes { IfOk result (λ r. (r.0 ≤ self.now.plan.messages) × Writes self.now.plan.end.form written (W.contents output.old) r.0 (W.contents output.new)) }
        ensures lives { IfOk result (λ r. LivesOn self.now.plan.end.form written session.old.follower (W.contents output.old) r.0 session.new.follower (W.contents output.new)) }
        // At a fault all that was told is written.
        ensures broken { OnErr result (BreaksActs self.now.plan.end.form session.old.follower.subscriber (W.contents output.old) session.new.follower.subscriber (W.contents output.new)) }
        // Last it was told the moment.
        ensures ticked { IfOk result (λ _. IsTicked session.old.watch.moment session.new.follower.subscriber) }
        ensures moment { session.new.watch.moment ≡ session.old.watch.moment }
        ensures turn { IsWithinTurn session.old.watch session.new.watch }
        ensures same { session.new ≡ record session.old { follower = session.new.follower; duty = session.new.duty; watch = session.new.watch } }
    {
        let before = session.duty.device().notes().frames;
        let stood = session.follower.subscriber.positions();
        let most = (self.plan.messages - written).min(CYCLE_MESSAGES as u64) as usize;
        let done = cycle(
            self.plan.end.form,
            most,
            &mut session.follower,
            output,
            &mut session.duty,
            session.watch.moment(),
        )?;
        session.note_heard(before);
        let all = written + done.messages as u64;
        let moved = session.follower.subscriber.positions() != stood;
        Ok((all, (done.messages > 0) | moved))
    }

    /// How many places there are.
    pub(crate) fn most_places(&self) -> usize
        ensures { result ≡ most_places self.now.plan }
    {
        self.plan.sessions.clamp(1, MOST_PLACES) as usize
    }

    /// A session's turn up to where a loss is judged: how many messages were written in all, and whether there was work.
    fn look<W: Write, E: Write>(
        &self,
        session: &mut Session,
        output: &mut W,
        errors: &mut E,
        watch: &mut Watch,
        written: u64,
    ) -> Result<(u64, bool), SubscribeFault>
        requires size { session.old.duty.mtu ≡ REPLY }
        requires few { written ≤ self.now.plan.messages }
        ensures size { session.new.duty.mtu ≡ REPLY }
        ensures images { session.new.images ≡ session.old.images }
        // What the cycle showed was noted, and the loss judged by that, once; where it stands is noted, and where it has all of its
        // stream it has told that.
        ensures looked { OnOk result (HasLooked session.old session.new) }
        ensures few { IfOk result (λ r. r.0 ≤ self.now.plan.messages) }
        ensures lives { IfOk result (λ r. LivesOn self.now.plan.end.form written session.old.follower (W.contents output.old) r.0 session.new.follower (W.contents output.new)) }
        ensures moment { watch.new.moment ≡ watch.old.moment }
        ensures caused { IfErr result (λ fault. IsTurnFault self.now.plan.end.form fault session.new.follower.subscriber (W.contents output.new) watch.new) }
        // At a fault all that was told is written.
        ensures broken { OnErr result (BreaksActs self.now.plan.end.form session.old.follower.subscriber (W.contents output.old) session.new.follower.subscriber (W.contents output.new)) }
    {
        let worked = session.calls_worked();
        let rebuilt = session.rebuilt();
        let (all, busy) = self.cycle_once(session, output, written)?;
        session.check_works(watch, worked)?;
        session.note_kept(rebuilt);
        let stand = session.answer_end(errors)?;
        let _ = session.tell_silence(errors);
        let _ = session.tell_loss(errors);
        session.stood = stand;
        Ok((all, busy))
    }

    /// A turn of each session, one after the other: how many messages were written in all, and whether there was work.
    fn look_at_each<W: Write, E: Write>(
        &self,
        sessions: &mut [Session],
        output: &mut W,
        errors: &mut E,
        watch: &mut Watch,
        written: u64,
    ) -> Result<(u64, bool), SubscribeFault>
        requires size { AllByRecursion IsSized sessions.old }
        requires few { written ≤ self.now.plan.messages }
        ensures size { AllByRecursion IsSized sessions.new }
        ensures looked { OnOk result (AllZip HasLooked sessions.old sessions.new) }
        ensures few { IfOk result (λ r. r.0 ≤ self.now.plan.messages) }
        // Each session's messages are its own, and are written in the order in which they were given.
        ensures lives { IfOk result (λ r. FollowsOn self.now.plan written sessions.old (W.contents output.old) r.0 sessions.new (W.contents output.new)) }
        ensures moment { watch.new.moment ≡ watch.old.moment }
        ensures caused { IfErr result (λ fault. IsOnesFault self.now.plan.end.form fault sessions.new (W.contents output.new) watch.new) }
        // At a fault all that was told is written.
        ensures broken { OnErr result (BreaksOffFrom self.now.plan written sessions.old (W.contents output.old) (W.contents output.new)) }
    {
        let mut all = written;
        let mut worked = false;
        for session in sessions.iter_mut() {
            let (more, busy) = self.look(session, output, errors, watch, all)?;
            all = more;
            worked = worked || busy;
        }
        Ok((all, worked))
    }

    /// Whether it has done what was wanted of it.
    fn is_done(&self, sessions: &[Session], written: u64) -> bool
        ensures { IsTrue result ↔ HasEnoughOfAll self.now.plan written sessions.now }
    {
        written >= self.plan.messages || (self.plan.once && are_done(sessions))
    }

    /// How it ends where it is quiet.
    fn quiet_ending(&self) -> Ending
        ensures { IsQuietEnding self.now.plan result }
    {
        if self.plan.once {
            Ending::Short
        } else {
            Ending::Whole
        }
    }

    /// How it ends with these sessions at the moment, behind so many messages, if it does.
    fn ending_of(&self, sessions: &[Session], written: u64) -> Option<Ending>
        ensures { IsEndingOfAll self.now.plan written sessions.now result }
    {
        let lost = have_lost(sessions);
        if self.is_done(sessions, written) {
            return Some(enough_ending(lost));
        }
        if !are_quiet(sessions, &self.plan) {
            return None;
        }
        match self.quiet_ending() {
            Ending::Whole => Some(enough_ending(lost)),
            Ending::Short | Ending::Lost => Some(Ending::Short),
        }
    }

    /// Tells the counters of each, once a second.
    fn tell<E: Write>(
        &self,
        sessions: &[Session],
        errors: &mut E,
        watch: &mut Watch,
        written: u64,
    ) -> io::Result<()>
        ensures same { watch.new ≡ record watch.old { told = watch.new.told; written = watch.new.written } }
        ensures tells { TellsWhereDue self.now.plan written watch.old watch.new (OnOk result (TellsCounters sessions.now watch.old written (E.contents errors.old) (E.contents errors.new))) (OnOk result (E.contents errors.new ≡ E.contents errors.old)) }
    {
        match watch.tells(&self.plan, written) {
            None => Ok(()),
            Some(since) => tell_counters_of(sessions, errors, watch, written, since),
        }
    }

    /// Tells the counters of each at the end, behind so many messages, where they are asked for.
    fn tell_last<E: Write>(
        &self,
        sessions: &[Session],
        errors: &mut E,
        watch: &Watch,
        written: u64,
    ) -> io::Result<()>
        ensures asked { IsTrue self.now.plan.end.counters → OnOk result (TellsCounters sessions.now watch.now written (E.contents errors.old) (E.contents errors.new)) }
        ensures quiet { self.now.plan.end.counters ≡ false → OnOk result (E.contents errors.new ≡ E.contents errors.old) }
    {
        if !self.plan.end.counters {
            return Ok(());
        }
        tell_counters_of(sessions, errors, watch, written, watch.since(written))
    }

    /// Asks the peer of each session for a SETUP where its image lacks what doesn't come.
    fn ask_each(&self, sessions: &mut Sessions)
        ensures asks { AsksEach self.now.plan sessions.old.list.items sessions.old.reception.socket sessions.new.reception.socket }
        ensures same { sessions.new.list ≡ sessions.old.list }
        ensures left { sessions.new.reception ≡ record sessions.old.reception { socket = sessions.new.reception.socket } }
    {
        let Sessions { list, reception } = sessions;
        self.ask_all(list.as_slice(), reception);
    }

    /// Tells the thread that repeats what is new of the status messages that the device of a place was given.
    fn tell_news_of<R: Wait>(&self, rt: &R, place: usize, session: &mut Session)
        ensures { session.new ≡ news_told session.old }
    {
        if let Some(news) = session.duty.device_mut().take_news() {
            self.slots.tell(rt, place, news);
        }
    }

    /// The same of each place.
    fn tell_news<R: Wait>(&self, rt: &R, sessions: &mut [Session])
        ensures { sessions.new ≡ map news_told sessions.old }
    {
        for place in 0..sessions.len() {
            self.tell_news_of(rt, place, &mut sessions[place]);
        }
    }

    /// Answers a turn, once all that its images gave is written: asks for SETUPs where an image lacks what doesn't come, finds
    /// those that came their places, asks who sent a frame of a session that nobody follows for one, and tells what is new of
    /// status messages to the thread that repeats them.
    fn answer_turn<R: Wait, E: Write>(
        &self,
        rt: &R,
        sessions: &mut Sessions,
        now: u64,
        errors: &mut E,
    ) -> Result<(), SubscribeFault>
        requires few { length sessions.old.list.items ≤ most_places self.now.plan }
        requires some { 0 < length sessions.old.list.items }
        requires apart { AreApart sessions.old.list.items }
        ensures refused { IfErr result IsOpenFault }
        ensures apart { OnOk result (AreApart sessions.new.list.items) }
        ensures answers { OnOk result (AnswersTurn self.now.plan now sessions.old.list.items sessions.old.reception sessions.new.list.items sessions.new.reception) }
        ensures few { OnOk result (length sessions.new.list.items ≤ most_places self.now.plan) }
    {
        self.ask_each(sessions);
        self.attend(sessions, now, errors)?;
        self.ask_caller(sessions, errors);
        self.tell_news(rt, sessions.list.as_mut_slice());
        Ok(())
    }

    /// Goes round until it ends. The answer is how many messages were written, and how it ends.
    fn follow<R: Wait + Clock, W: Write, E: Write>(
        &self,
        rt: &R,
        sessions: &mut Sessions,
        output: &mut W,
        errors: &mut E,
        watch: &mut Watch,
    ) -> Result<(u64, Ending), SubscribeFault>
        requires begins { AllByRecursion IsBegun sessions.old.list.items }
        requires some { 0 < length sessions.old.list.items }
        requires places { length sessions.old.list.items ≤ most_places self.now.plan }
        requires apart { AreApart sessions.old.list.items }
        requires begun { FollowsAll self.now.plan (W.contents output.old) 0 sessions.old.list.items (W.contents output.old) }
        ensures size { IfOk result (λ _. AllByRecursion IsSized sessions.new.list.items) }
        ensures few { IfOk result (λ r. r.0 ≤ self.now.plan.messages) }
        ensures some { IfOk result (λ _. 0 < length sessions.new.list.items) }
        ensures places { IfOk result (λ _. length sessions.new.list.items ≤ most_places self.now.plan) }
        // No two places have the same session.
        ensures apart { IfOk result (λ _. AreApart sessions.new.list.items) }
        ensures ended { IfOk result (λ r. IsEndingOfAll self.now.plan r.0 sessions.new.list.items (Some r.1)) }
        ensures stood { IfOk result (λ _. AllByRecursion HasStood sessions.new.list.items) }
        // In each turn, but in the last one, what came of SETUPs was attended.
        ensures attended { IfOk result (λ _. AllByRecursion (λ j. AttendsEach j.watch) sessions.new.list.items) }
        // In each turn, the last one too, it was noted what each image lacks, and judged by that whether it is lost.
        ensures judged { IfOk result (λ _. AllByRecursion (λ j. JudgesEach j.watch) sessions.new.list.items) }
        // What their images gave, each in its turn.
        ensures lives { IfOk result (λ r. FollowsAll self.now.plan (W.contents output.old) r.0 sessions.new.list.items (W.contents output.new)) }
        ensures caused { IfErr result (λ fault. IsFollowFault self.now.plan.end.form fault sessions.new.list.items (W.contents output.new)) }
        ensures broken { OnErr result (BreaksPlaces self.now.plan (W.contents output.old) (W.contents output.new)) }
    {
        let mut written: u64 = 0;
        let mut idle = IdleStrategy::new();
        for _ in rt.forever() {
            watch.see(rt)?;
            sessions.begin_turn(watch.moment());
            let passed = sessions.read(self.alloc, watch)?;
            let list = sessions.list.as_mut_slice();
            let (all, busy) = self.look_at_each(list, output, errors, watch, written)?;
            written = all;
            let _ = self.tell(list, errors, watch, written);
            if let Some(ending) = self.ending_of(list, written) {
                return Ok((written, ending));
            }
            self.answer_turn(rt, sessions, watch.moment(), errors)?;
            idle.after(rt, busy || passed);
        }
        unreachable!()
    }

    /// Leaves its sessions: unless all of their streams are there, and they were quiet since, each is told where the subscriber
    /// stands.
    fn leave<R: Wait + Clock>(
        &self,
        rt: &R,
        sessions: &mut [Session],
        watch: &mut Watch,
    ) -> Result<(), SubscribeFault>
        requires { AllByRecursion IsSized sessions.old }
        ensures left { AllZip HasLeft sessions.old sessions.new }
        ensures leaves { LeavesAll self.now.plan watch.old.moment watch.new.moment sessions.old sessions.new (OnOk result) }
    {
        if are_settled(sessions, &self.plan) {
            return Ok(());
        }
        bid_farewell(rt, sessions, watch)
    }

    /// Tells why one without an image ends short, where it does. It is how it ends.
    fn tell_nobody_there<E: Write>(&self, errors: &mut E) -> io::Result<()>
        ensures short { IsTrue self.now.plan.once → OnOk result (Appends (E.contents errors.old) (E.contents errors.new) (nobody_line (self.now.plan.quiet / 1000000000))) }
        ensures whole { self.now.plan.once ≡ false → OnOk result (E.contents errors.new ≡ E.contents errors.old) }
    {
        if !self.plan.once {
            return Ok(());
        }
        tell(errors, Line::Nobody(self.plan.quiet / SECOND))
    }

    /// Follows all sessions to the end, and leaves them. Nothing is repeated any more once all is written.
    fn follow_all<R: Wait + Clock, W: Write, E: Write>(
        &self,
        rt: &R,
        sessions: &mut Sessions,
        output: &mut W,
        errors: &mut E,
        watch: &mut Watch,
    ) -> Result<Subscribed, SubscribeFault>
        requires begins { AllByRecursion IsBegun sessions.old.list.items }
        requires some { 0 < length sessions.old.list.items }
        requires places { length sessions.old.list.items ≤ most_places self.now.plan }
        requires apart { AreApart sessions.old.list.items }
        requires begun { FollowsAll self.now.plan (W.contents output.old) 0 sessions.old.list.items (W.contents output.old) }
        ensures few { IfOk result (λ s. s.messages ≤ self.now.plan.messages) }
        ensures short { IfOk result (λ s. s.ending ≡ Short → IsTrue self.now.plan.once) }
        ensures lives { IfOk result (λ s. WritesPlaces self.now.plan (W.contents output.old) s.messages (W.contents output.new)) }
        ensures ended { IfOk result (λ s. EndsWithSessions self.now.plan (W.contents output.old) s (W.contents output.new)) }
        ensures caused { IfErr result (λ fault. IsFollowFault self.now.plan.end.form fault sessions.new.list.items (W.contents output.new)) }
        ensures broken { OnErr result (BreaksPlaces self.now.plan (W.contents output.old) (W.contents output.new)) }
    {
        let opened = watch.moment();
        let followed = self.follow(rt, sessions, output, errors, watch);
        let list = sessions.list.as_mut_slice();
        self.slots.end(rt);
        let _ = tell_refused_of(list, errors, watch.strangers());
        let (messages, ending) = followed?;
        let _ = self.tell_last(list, errors, watch, messages);
        let _ = tell_totals(errors, totals_of(list, watch, messages, opened));
        let _ = tell_ending_of(list, ending, errors, self.plan.quiet / SECOND);
        let _ = self.leave(rt, list, watch);
        Ok(Subscribed { messages, ending })
    }

    /// Listens until an image opens, and follows it, and those that come behind it, to the end.
    fn listen_and_follow<R: Wait + Clock, W: Write, E: Write>(
        &self,
        rt: &R,
        mut reception: Reception,
        output: &mut W,
        errors: &mut E,
        watch: &mut Watch,
    ) -> Result<Subscribed, SubscribeFault>
        ensures lives { IfOk result (λ s. WritesPlaces self.now.plan (W.contents output.old) s.messages (W.contents output.new)) }
        ensures broken { OnErr result (BreaksPlaces self.now.plan (W.contents output.old) (W.contents output.new)) }
        ensures few { IfOk result (λ s. s.messages ≤ self.now.plan.messages) }
        ensures short { IfOk result (λ s. s.ending ≡ Short → IsTrue self.now.plan.once) }
        ensures ended { IfOk result (λ s. HasEnded self.now.plan (W.contents output.old) s (W.contents output.new)) }
        ensures caused { IfErr result IsRunFault }
    {
        match listen(rt, self.alloc, &self.plan, &mut reception, errors, watch)? {
            None => {
                let _ = tell_refused(errors, FaultCounts::new(), watch.strangers());
                let _ = self.tell_nobody_there(errors);
                Ok(Subscribed {
                    messages: 0,
                    ending: self.quiet_ending(),
                })
            }
            Some(session) => {
                let id = SessionId(session.opening.session);
                let _ = tell(errors, Line::Joined(id, session.place()));
                let mut sessions = Sessions::new(self.alloc, session, reception)?;
                self.follow_all(rt, &mut sessions, output, errors, watch)
            }
        }
    }
}

/// Subscribes as planned, over a socket that is bound so, once, and writes each message to the output as the plan's form says.
/// The answer is how many were written, and how it ended.
///
/// It ends whole behind as many messages as are wanted. One that is to end with the stream ends whole where the publisher told
/// the stream's end and all before that is written and flushed, and short where it was quiet before: no DATA frame, padding or
/// heartbeat of its session came from its peer for as long as the plan says, or before it had an image no datagram that the
/// plan takes. One that isn't ends whole where it was quiet. Where a stream was cut off, or broken off by its publisher, it ends as
/// one that has lost something (`Ending::Lost`).
///
/// `errors` gets what `Line` has. Behind a fault the output may end within a message, of which no status message has told.
#[tactic(auto, using(crate::proofs::Placed::before_image, crate::proofs::Placed::none_breaks))]
pub fn subscribe<R: Threads + Wait + Clock + Net + Copy + Send + 'static, W: Write, E: Write>(
    rt: &R,
    alloc: Global,
    plan: &SubscribePlan,
    binding: &Binding,
    output: &mut W,
    errors: &mut E,
) -> Result<Subscribed, SubscribeFault>
    // What was written is whole messages, one after the other.
    ensures writes { IfOk result (λ s. Writes plan.now.end.form 0 (W.contents output.old) s.messages (W.contents output.new)) }
    // They are what the polls of its images gave, each image lived through as a receiver does: of each session whole, once and in
    // order, between those of the others.
    ensures lives { IfOk result (λ s. WritesPlaces plan.now (W.contents output.old) s.messages (W.contents output.new)) }
    // Behind a fault all is written of which a status message may have told.
    ensures broken { OnErr result (BreaksPlaces plan.now (W.contents output.old) (W.contents output.new)) }
    ensures few { IfOk result (λ s. s.messages ≤ plan.now.messages) }
    // Only one that was to end with the stream ends short.
    ensures short { IfOk result (λ s. s.ending ≡ Short → IsTrue plan.now.once) }
    // It was quiet before any image, and wrote nothing, or it ended where its images stood then; whole, only where no stream was
    // cut off.
    ensures ended { IfOk result (λ s. HasEnded plan.now (W.contents output.old) s (W.contents output.new)) }
    // That the address is another's, or isn't there, or that there is no thread, is found out at the begin, with nothing written.
    ensures caused { IfErr result (λ fault. IsSubscribeFault binding.now.address fault (W.contents output.old) (W.contents output.new)) }
{
    let Ok(began) = Instant::now(rt) else {
        return Err(SubscribeFault::Failed(DeviceError::Device));
    };
    let mut watch = Watch::new(began);
    let listener = bind(rt, alloc, binding)?;
    let repeater = StatusRepeater::new(alloc, MOST_PLACES as usize, second_handle(&listener)?)?;
    let repeating = Repeating::start(rt, alloc, repeater)?;
    let subscription = Subscription {
        alloc,
        plan: *plan,
        slots: repeating.slots(),
    };
    let reception = Reception::new(listener);
    let done = subscription.listen_and_follow(rt, reception, output, errors, &mut watch);
    repeating.end(rt);
    done
}
