//! The thread that reads messages and offers them, started and joined. Nobody has to wait for it: it may stay at its input for ever.

ghost use Rattle.std.specs.Prelude.{◌≡◌, ◌≤◌, Err, IfErr, IfOk, IfSome, Ok, length};
ghost use Rattle.std.specs.Arc.{arc_value};
ghost use Rattle.theory.specs.Position.{max_message};
ghost use Rattle.shared_log.specs.Books.{IsDone};
ghost use Rattle.publisher.specs.InputEnds.{EndsInput};
ghost use Rattle.publisher.specs.Inputs.{StopsReading};
ghost use Rattle.publisher.specs.Offers.{GivesUp, OffersOne, PublishesInput, PublishesNone};
ghost use Rattle.publisher.specs.Refusals.{IsRefusedForGood};

use crate::offering::offering_state::OfferingState;
use crate::offering::reading::{Offered, Reading, ReadingEnd, ReadingFault};
use agents::IdleStrategy;
use messages::{Form, read_message};
use publication::{Refusal, offer};
use shared_log::{Log, OnLog, Publisher};
use std::alloc::Global;
use std::io::BufRead;
use std::snapshot::Snapshot;
use std::sync::Arc;
use std::thread;
use std::thread::{Promise, PromisedHandle, Threads};
use std::time::Clock;

/// What the thread that reads is lent: how messages stand in its input, and what it shares.
#[derive(Drop)]
pub struct OfferingContext<'a, R> {
    pub rt: &'a R,
    pub alloc: Global,
    pub form: Form,
    pub state: &'a OfferingState,
}

/// Offers a message once. Where it ends, if it was accepted; the thread rests where the log has no room yet. The fault is
/// `Full`, where it was refused for good.
#[tactic(auto, using(crate::proofs::Offers::accepted, crate::proofs::Offers::refused))]
fn offer_or_rest<R: Clock>(
    context: &OfferingContext<'_, R>,
    publisher: &mut Publisher,
    message: &[u8],
    idle: &mut IdleStrategy,
) -> Result<Option<u64>, ReadingFault>
    requires done { IsDone context.now.state.now.log publisher.old }
    requires short { length message.now ≤ max_message context.now.state.now.log.identity.geometry }
    ensures done { IsDone context.now.state.now.log publisher.new }
    ensures published { IfOk result (λ end. OffersOne publisher.old.pass message.now end publisher.new.pass) }
    ensures fault { IfErr result (λ fault. (fault ≡ ReadingFault.Full) × PublishesNone publisher.old.pass publisher.new.pass × IsRefusedForGood publisher.old.pass (length message.now) publisher.new.pass) }
{
    match offer(&mut OnLog::new(&context.state.log), publisher, message) {
        Ok(end) => Ok(Some(end)),
        Err(Refusal::AdminAction) => Ok(None),
        Err(Refusal::BackPressured | Refusal::NotConnected) => {
            idle.rest(context.rt);
            Ok(None)
        }
        Err(Refusal::Closed | Refusal::MaxPositionExceeded) => Err(ReadingFault::Full),
    }
}

/// Offers a message until it is accepted. Where it ends: it isn't accepted where all is to stop. The fault is `Full`, where its
/// last offer was refused for good.
#[tactic(auto, using(crate::proofs::Offers::after_none))]
fn offer_until_accepted<R: Clock>(
    context: &OfferingContext<'_, R>,
    publisher: &mut Publisher,
    message: &[u8],
) -> Result<Option<u64>, ReadingFault>
    requires done { IsDone context.now.state.now.log publisher.old }
    requires short { length message.now ≤ max_message context.now.state.now.log.identity.geometry }
    ensures done { IsDone context.now.state.now.log publisher.new }
    ensures published { IfOk result (λ end. OffersOne publisher.old.pass message.now end publisher.new.pass) }
    ensures fault { IfErr result (λ fault. (fault ≡ ReadingFault.Full) × PublishesNone publisher.old.pass publisher.new.pass × GivesUp publisher.old.pass (length message.now) publisher.new.pass) }
{
    let mut idle = IdleStrategy::new();
    for _turn in 0..u64::MAX {
        if context.state.is_stopped() {
            return Ok(None);
        }
        if let Some(end) = offer_or_rest(context, publisher, message, &mut idle)? {
            return Ok(Some(end));
        }
    }
    Ok(None)
}

/// Reads the messages of the input and offers each until it is accepted, up to the input's end, a fault, or all is to stop.
/// What was accepted is counted.
#[tactic(auto, using(crate::proofs::Inputs::of_message, crate::proofs::Offers::ended, crate::proofs::Offers::counted_out, crate::proofs::Offers::unpublished))]
fn offer_all<R: Clock, I: BufRead>(
    context: &OfferingContext<'_, R>,
    input: &mut I,
    publisher: &mut Publisher,
    offered: &mut Offered,
) -> Result<ReadingEnd, ReadingFault>
    requires done { IsDone context.now.state.now.log publisher.old }
    requires none { offered.old.messages ≡ 0 }
    ensures done { IsDone context.now.state.now.log publisher.new }
    ensures read { IfOk result (λ end. PublishesInput context.now.form (max_message context.now.state.now.log.identity.geometry) offered.old.tail (I.remaining input.old) (I.remaining input.new) publisher.old.pass publisher.new.pass offered.new (Ok end)) }
    ensures fault { IfErr result (λ fault. StopsReading context.now.state.now.log.identity.geometry fault × PublishesInput context.now.form (max_message context.now.state.now.log.identity.geometry) offered.old.tail (I.remaining input.old) (I.remaining input.new) publisher.old.pass publisher.new.pass offered.new (Err fault)) }
{
    let form = context.form;
    let greatest = context.state.log.identity().geometry().max_message() as usize;
    let mut message = Vec::new(context.alloc);
    for number in 1..u64::MAX {
        if !read_message(form, number, greatest, input, &mut message)? {
            return Ok(ReadingEnd::All);
        }
        let Some(tail) = offer_until_accepted(context, publisher, &message)? else {
            return Ok(ReadingEnd::Stopped);
        };
        *offered = Offered {
            messages: number,
            tail,
        };
        context.state.accept(*offered);
    }
    Ok(ReadingEnd::Stopped)
}

/// Reads the input and publishes what it gives. The answer is how that ended.
///
/// What the publisher has claimed and committed since is the messages that were read, in their order, each once and whole,
/// and paddings; where what it had claimed before is in the order of the stream, all of it is. Behind them the input is at its
/// end, or gives no message for the fault that is told; or one more was read, when all was to stop or the stream had no place
/// for it: its last offer was refused for good.
pub fn read_input<R: Clock, I: BufRead>(
    context: &OfferingContext<'_, R>,
    input: &mut I,
    publisher: &mut Publisher,
) -> Reading
    requires { IsDone context.now.state.now.log publisher.old }
    ensures done { IsDone context.now.state.now.log publisher.new }
    ensures geometry { result.geometry ≡ context.now.state.now.log.identity.geometry }
    ensures publishes { PublishesInput context.now.form (max_message context.now.state.now.log.identity.geometry) context.now.state.now.log.start (I.remaining input.old) (I.remaining input.new) publisher.old.pass publisher.new.pass result.offered result.ended }
{
    let mut offered = Offered {
        messages: 0,
        tail: context.state.log.start(),
    };
    let ended = offer_all(context, input, publisher, &mut offered);
    Reading::new(context.state.log.identity().geometry(), offered, ended)
}

/// What is left where the reading has ended: the input, its publisher, and how it ended.
#[derive(Drop)]
pub struct InputEnd<I> {
    pub input: I,
    pub publisher: Publisher,
    pub reading: Reading,
}

/// What a thread reads, for the proofs alone: how messages stand in its input, for which log, and the input and the publisher
/// as it begins.
#[derive(Drop)]
pub struct ReadsInput<I> {
    pub form: Form,
    pub log: Snapshot<Log>,
    pub input: Snapshot<I>,
    pub publisher: Snapshot<Publisher>,
}

impl<I: BufRead> Promise<InputEnd<I>> for ReadsInput<I> {
    ghost kept_by = { λ p e. EndsInput p.form p.log.value (I.remaining p.input.value) (I.remaining e.input) p.publisher.value.pass e.publisher e.reading };
}

/// A thread that reads. Where nobody joins it, it goes on by itself.
#[derive(Drop)]
pub struct Reader<I: BufRead> {
    pub handle: PromisedHandle<InputEnd<I>, ReadsInput<I>>,
}

/// All that the thread does, with what is left then: it reads, and tells in the state how that ended. Where an end was told there
/// before, its own is handed back.
fn read_all_there<R: Clock + Copy, I: BufRead>(
    rt: R,
    alloc: Global,
    form: Form,
    state: &OfferingState,
    mut input: I,
    mut publisher: Publisher,
) -> InputEnd<I>
    requires { IsDone state.now.log publisher }
    ensures { EndsInput form state.now.log (I.remaining input) (I.remaining result.input) publisher.pass result.publisher result.reading }
{
    let context = OfferingContext {
        rt: &rt,
        alloc,
        form,
        state,
    };
    let reading = read_input(&context, &mut input, &mut publisher);
    let reading = match state.end_input(reading) {
        Ok(token) => state.told(&token),
        Err(back) => back,
    };
    InputEnd {
        input,
        publisher,
        reading,
    }
}

/// Starts a thread that reads, for the log of this state; none where no thread can be made.
pub fn start_reader<R: Threads + Clock + Send + Copy + 'static, I: BufRead + Send + Drop + 'static>(
    rt: &R,
    alloc: Global,
    form: Form,
    state: Arc<OfferingState>,
    input: I,
    publisher: Publisher,
) -> Option<Reader<I>>
    requires { IsDone (arc_value state).log publisher }
    ensures { IfSome result (λ r. (r.handle.promise.form ≡ form) × (r.handle.promise.log.value ≡ (arc_value state).log) × (r.handle.promise.input.value ≡ input) × (r.handle.promise.publisher.value ≡ publisher)) }
{
    let there = *rt;
    let reads = ReadsInput {
        form,
        log: Snapshot::of(&state.log),
        input: Snapshot::of(&input),
        publisher: Snapshot::of(&publisher),
    };
    let started = thread::spawn_with(
        rt,
        reads,
        move || -> InputEnd<I>
            requires { IsDone (arc_value state).log publisher }
            ensures { EndsInput form (arc_value state).log (I.remaining input) (I.remaining result.input) publisher.pass result.publisher result.reading }
        { read_all_there(there, alloc, form, &state, input, publisher) },
    );
    match started {
        Ok(handle) => Some(Reader { handle }),
        Err(_) => None,
    }
}

impl<I: BufRead> Reader<I> {
    /// Waits for the thread's end. What is left then is what its reading made of the input.
    pub fn join<R: Threads>(self, rt: &R) -> InputEnd<I>
        ensures { EndsInput self.handle.promise.form self.handle.promise.log.value (I.remaining self.handle.promise.input.value) (I.remaining result.input) self.handle.promise.publisher.value.pass result.publisher result.reading }
    {
        let Reader { handle } = self;
        handle.join(rt)
    }
}
