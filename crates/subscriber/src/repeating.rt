//! The thread that repeats a subscriber's last status message while its output blocks.

ghost use Rattle.std.specs.Prelude.{◌≤◌, IfErr};
ghost use Rattle.subscriber.specs.Leavings.{IsStartFault};

pub(crate) mod repeater;

use crate::fault::SubscribeFault;
use crate::images::session_device::StatusNews;
use crate::repeating::repeater::StatusRepeater;
use agents::Began;
use crossbeam_queue::ArrayQueue;
use std::alloc::{AllocError, Global};
use std::sync::{Arc, Wait};
use std::thread;
use std::thread::{JoinHandle, Threads};
use std::time::{Clock, Duration};

/// Milliseconds from one look to the next.
const PAUSE: u64 = 100;

/// Where the thread is told something of each place: the newest, until it has taken that.
#[derive(Drop)]
pub(crate) struct Slots {
    newest: Vec<ArrayQueue<StatusNews>>,
    /// Holds something once it is to end.
    end: ArrayQueue<()>,
}

impl Slots {
    /// Tells what is new of a place. What stood there before isn't told any more.
    pub(crate) fn tell<R: Wait>(&self, rt: &R, place: usize, news: StatusNews) {
        if let Some(newest) = self.newest.get(place) {
            newest.force_push(rt, news);
        }
    }

    /// What is new of a place, if anything is.
    fn take<R: Wait>(&self, rt: &R, place: usize) -> Option<StatusNews> {
        self.newest.get(place)?.pop(rt)
    }

    /// Tells it to end, which may be told again.
    pub(crate) fn end<R: Wait>(&self, rt: &R) {
        self.end.force_push(rt, ());
    }

    /// Whether it was told to end.
    fn has_ended<R: Wait>(&self, rt: &R) -> bool {
        self.end.pop(rt).is_some()
    }
}

/// The moment, which never falls; the one before where the clock can't be read.
fn moment_from<R: Clock>(rt: &R, began: &Began, before: u64) -> u64
    ensures { before ≤ result }
{
    began.moment(rt).unwrap_or(before).max(before)
}

/// A turn of each place at a moment, with what is new of it.
fn repeat_each<R: Wait>(rt: &R, slots: &Slots, repeater: &mut StatusRepeater, now: u64) {
    for place in 0..repeater.places() {
        repeater.turn(place, now, slots.take(rt, place));
    }
}

/// Looks each 100 ms for what is new, and repeats the last status message of each place where it is due, until it is told to end.
fn repeat_all<R: Wait + Clock>(rt: &R, slots: &Slots, began: &Began, mut repeater: StatusRepeater) {
    let mut now = 0;
    for _ in rt.forever() {
        thread::sleep(rt, Duration::from_millis(PAUSE));
        if slots.has_ended(rt) {
            return;
        }
        now = moment_from(rt, began, now);
        repeat_each(rt, slots, &mut repeater, now);
    }
    unreachable!()
}

/// The thread, and where it is told something. It lives until `end`.
#[derive(Drop)]
pub(crate) struct Repeating {
    slots: Arc<Slots, Global>,
    handle: JoinHandle<()>,
}

/// A slot for each of so many places.
fn slots_of(alloc: Global, places: usize) -> Result<Slots, AllocError> {
    let mut newest = Vec::new(alloc);
    for _place in 0..places {
        if newest.push(ArrayQueue::new(alloc, 1)?).is_err() {
            return Err(AllocError);
        }
    }
    let end = ArrayQueue::new(alloc, 1)?;
    Ok(Slots { newest, end })
}

/// Slots, once for each thread.
fn shared_slots(
    alloc: Global,
    places: usize,
) -> Result<(Arc<Slots, Global>, Arc<Slots, Global>), AllocError> {
    let ours = Arc::new(alloc, slots_of(alloc, places)?)?;
    let theirs = Arc::try_clone(&ours)?;
    Ok((ours, theirs))
}

impl Repeating {
    /// Starts the thread, which gives the repeater its turns. `Device`: the clock can't be read.
    pub(crate) fn start<R: Threads + Wait + Clock + Copy + Send + 'static>(
        rt: &R,
        alloc: Global,
        repeater: StatusRepeater,
    ) -> Result<Repeating, SubscribeFault>
        ensures { IfErr result IsStartFault }
    {
        let began = Began::now(rt)?;
        let (slots, theirs) = shared_slots(alloc, repeater.places())?;
        let there = *rt;
        match thread::spawn(rt, move || repeat_all(&there, &theirs, &began, repeater)) {
            Ok(handle) => Ok(Repeating { slots, handle }),
            Err(_) => Err(SubscribeFault::NoThread),
        }
    }

    /// Where the thread is told something.
    pub(crate) fn slots(&self) -> &Slots {
        &self.slots
    }

    /// Tells the thread to end, and waits until it has.
    pub(crate) fn end<R: Threads + Wait>(self, rt: &R) {
        let Repeating { slots, handle } = self;
        slots.end(rt);
        handle.join(rt);
    }
}
