//! The course of a measurement: its begin, the time since then, and its end.

ghost use Rattle.std.specs.Prelude.{◌≡◌, IfOk, IfSome};

use crate::fault::LatencyError;
use agents::Began;
use endpoint::DeviceError;
use std::sync::atomic::{AtomicBool, AtomicU64, Ordering};
use std::sync::{OnceLock, Wait};
use std::thread;
use std::time::Clock;

/// The moment from which time is counted, how many publishers have come, the begin, the end, and the first fault.
#[derive(Drop)]
pub struct Course {
    pub origin: Began,
    arrived: AtomicU64,
    begun: AtomicBool,
    /// Nanoseconds from the origin to the begin.
    begun_after: AtomicU64,
    stopped: AtomicBool,
    fault: OnceLock<LatencyError>,
}

impl Course {
    pub fn new<R: Clock>(rt: &R) -> Result<Course, LatencyError> {
        let Ok(origin) = Began::now(rt) else {
            return Err(LatencyError::Clock);
        };
        Ok(Course {
            origin,
            arrived: AtomicU64::new(0),
            begun: AtomicBool::new(false),
            begun_after: AtomicU64::new(0),
            stopped: AtomicBool::new(false),
            fault: OnceLock::new(),
        })
    }

    /// Nanoseconds since the begin, or since the origin before there was one.
    pub fn moment<R: Clock>(&self, rt: &R) -> Result<u64, LatencyError> {
        let Ok(moment) = self.origin.moment(rt) else {
            return Err(LatencyError::Clock);
        };
        Ok(moment.saturating_sub(self.begun_after.load(Ordering::SeqCst)))
    }

    /// Lets all end.
    pub fn stop(&self) {
        self.stopped.store(true, Ordering::SeqCst);
    }

    pub fn is_stopped(&self) -> bool {
        self.stopped.load(Ordering::SeqCst)
    }

    /// A thread has failed: that lets all end.
    pub fn fail(&self, fault: LatencyError) {
        let _ = self.fault.try_set(fault);
        self.stop();
    }

    /// A party of the driver has ended: that lets all end.
    pub fn end(&self, ended: Result<(), DeviceError>) {
        match ended {
            Ok(()) => self.stop(),
            Err(fault) => self.fail(LatencyError::from(fault)),
        }
    }

    /// The first fault of a thread, if there was one.
    pub fn outcome(&self) -> Result<(), LatencyError> {
        match self.fault.get() {
            Some(fault) => Err(*fault),
            None => Ok(()),
        }
    }

    /// A publisher has come, and waits for the begin, or the end.
    pub fn arrive<R: Wait>(&self, rt: &R) {
        self.arrived.fetch_add(1, Ordering::SeqCst);
        for _ in rt.forever() {
            if self.begun.load(Ordering::SeqCst) || self.is_stopped() {
                return;
            }
            thread::yield_now();
        }
    }

    /// Begins once so many publishers have come.
    pub fn begin<R: Wait + Clock>(&self, rt: &R, publishers: u32) -> Result<(), LatencyError> {
        for _ in rt.forever() {
            if self.arrived.load(Ordering::SeqCst) >= u64::from(publishers) || self.is_stopped() {
                break;
            }
            thread::yield_now();
        }
        let moment = self.moment(rt)?;
        self.begun_after.store(moment, Ordering::SeqCst);
        self.begun.store(true, Ordering::SeqCst);
        Ok(())
    }

    /// Waits until a moment, or for the end.
    fn wait_until<R: Wait + Clock>(&self, rt: &R, moment: u64) -> Result<(), LatencyError> {
        for _ in rt.forever() {
            if self.moment(rt)? >= moment || self.is_stopped() {
                return Ok(());
            }
            thread::yield_now();
        }
        unreachable!()
    }

    /// The stamp of a message: the moment at which it is due, once that has come; where it isn't due at any moment, this
    /// one.
    pub fn stamp<R: Wait + Clock>(&self, rt: &R, due: Option<u64>) -> Result<u64, LatencyError>
        ensures { IfSome due (λ moment. IfOk result (λ stamp. stamp ≡ moment)) }
    {
        let Some(due) = due else {
            return self.moment(rt);
        };
        self.wait_until(rt, due)?;
        Ok(due)
    }
}
