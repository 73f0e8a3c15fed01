//! The threads of publishers.

ghost use Rattle.std.specs.Prelude.{◌≡◌, ◌≤◌, length};
ghost use Rattle.std.specs.List.{AllByRecursion};
ghost use Rattle.theory.specs.Position.{max_message};
ghost use Rattle.shared_log.specs.Books.{IsDone};

use crate::course::Course;
use crate::fault::LatencyError;
use crate::load::Load;
use crate::stamps::{first_message, put_stamp};
use agents::IdleStrategy;
use publication::{Refusal, offer};
use shared_log::{Log, OnLog, Publisher};
use std::alloc::Global;
use std::sync::Wait;
use std::thread;
use std::thread::Scope;
use std::time::Clock;

/// What a publisher does where the log is full.
#[derive(Clone, Copy)]
pub enum WhenFull {
    /// It yields, however long it takes.
    Yield,
    /// It yields for a while, and then sleeps.
    Rest,
}

impl WhenFull {
    fn turn<R: Clock>(self, rt: &R, idle: &mut IdleStrategy) {
        match self {
            WhenFull::Yield => thread::yield_now(),
            WhenFull::Rest => idle.rest(rt),
        }
    }
}

/// What the threads of publishers are lent, and what each has to do.
#[derive(Drop)]
pub struct Offers<'a, R> {
    pub rt: &'a R,
    pub alloc: Global,
    pub log: &'a Log,
    pub course: &'a Course,
    pub load: Load,
    pub when_full: WhenFull,
}

/// Offers a message.
fn offer_once(words: &mut OnLog, publisher: &mut Publisher, message: &[u8]) -> Result<u64, Refusal>
    requires done { IsDone words.old publisher.old }
    requires short { length message.now ≤ max_message words.old.identity.geometry }
    ensures same { words.new ≡ words.old }
    ensures done { IsDone words.old publisher.new }
{
    offer(words, publisher, message)
}

/// Offers a message until it is accepted. Whether it was: it isn't where all ends.
fn offer_until_accepted<R: Wait + Clock>(
    offers: &Offers<'_, R>,
    words: &mut OnLog,
    publisher: &mut Publisher,
    message: &[u8],
) -> Result<bool, LatencyError>
    requires done { IsDone words.old publisher.old }
    requires short { length message.now ≤ max_message words.old.identity.geometry }
    ensures same { words.new ≡ words.old }
    ensures done { IsDone words.old publisher.new }
{
    let rt = offers.rt;
    let mut idle = IdleStrategy::new();
    for _ in rt.forever() {
        match offer_once(words, publisher, message) {
            Ok(_) => return Ok(true),
            Err(Refusal::AdminAction) => {}
            Err(Refusal::BackPressured | Refusal::NotConnected) => {
                offers.when_full.turn(rt, &mut idle);
            }
            Err(Refusal::Closed | Refusal::MaxPositionExceeded) => return Err(LatencyError::Full),
        }
        if offers.course.is_stopped() {
            return Ok(false);
        }
    }
    unreachable!()
}

/// Stamps and offers all messages, each once it is due.
fn offer_all<R: Wait + Clock>(
    offers: &Offers<'_, R>,
    publisher: &mut Publisher,
    message: &mut [u8],
) -> Result<(), LatencyError>
    requires done { IsDone offers.now.log.now publisher.old }
    requires whole { 16 ≤ length message.old }
    requires short { length message.old ≤ max_message offers.now.log.now.identity.geometry }
{
    let (course, load) = (offers.course, offers.load);
    let mut words = OnLog::new(offers.log);
    for number in 0..load.messages {
        let stamp = course.stamp(offers.rt, load.due(number))?;
        put_stamp(message, number, stamp);
        if !offer_until_accepted(offers, &mut words, publisher, message)? {
            break;
        }
    }
    Ok(())
}

/// What a publisher does: it gets its message ready, and offers all from the begin on.
fn publish<R: Wait + Clock>(
    offers: &Offers<'_, R>,
    mut publisher: Publisher,
) -> Result<(), LatencyError>
    requires done { IsDone offers.now.log.now publisher }
    requires short { offers.now.load.length ≤ max_message offers.now.log.now.identity.geometry }
{
    let load = offers.load;
    let mut message = first_message(offers.alloc, publisher.number(), load.length)?;
    offers.course.arrive(offers.rt);
    offer_all(offers, &mut publisher, &mut message)
}

/// Starts the thread of a publisher. Where it fails, or can't be started, all end.
fn start_publisher<'s, S, R: Wait + Clock + Sync>(
    scope: &'s Scope<'s, S>,
    offers: &Offers<'s, R>,
    publisher: Publisher,
)
    requires done { IsDone offers.now.log.now publisher }
    requires short { offers.now.load.length ≤ max_message offers.now.log.now.identity.geometry }
{
    let &Offers {
        rt,
        alloc,
        log,
        course,
        load,
        when_full,
    } = offers;
    let started = scope.spawn(move || {
        let offers = Offers {
            rt,
            alloc,
            log,
            course,
            load,
            when_full,
        };
        if let Err(fault) = publish(&offers, publisher) {
            course.fail(fault);
        }
    });
    if started.is_err() {
        course.fail(LatencyError::Thread);
    }
}

/// Starts the threads of all publishers.
pub fn start_publishers<'s, S, R: Wait + Clock + Sync>(
    scope: &'s Scope<'s, S>,
    offers: &Offers<'s, R>,
    mut waiting: Vec<Publisher>,
)
    requires done { AllByRecursion (IsDone offers.now.log.now) waiting.items }
    requires short { offers.now.load.length ≤ max_message offers.now.log.now.identity.geometry }
{
    while let Some(publisher) = waiting.pop() {
        start_publisher(scope, offers, publisher);
    }
}
