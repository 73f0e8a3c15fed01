//! What the threads of a run share.

ghost use Rattle.std.specs.Prelude.{◌≡◌, IfErr};
ghost use Rattle.endpoint.specs.declared.device_error.DeviceError.TheVariants.{Device};
ghost use Rattle.run_parties.specs.Groups.{ends_all};

use agents::Began;
use conductor::Conductor;
use endpoint::DeviceError;
use shared_log::Log;
use std::sync::atomic::{AtomicBool, AtomicU64, Ordering};
use std::time::Clock;

/// The log, the command queue, the moment of the begin, whether all is to stop, and what was done so far.
#[derive(Drop)]
pub struct RunState {
    pub log: Log,
    pub conductor: Conductor,
    began: Began,
    stopped: AtomicBool,
    /// How many subscribers haven't ended.
    left: AtomicU64,
    sent: AtomicU64,
    resent: AtomicU64,
    polled: AtomicU64,
}

/// How many datagrams of frames were sent for the first time and again, and how many messages were polled.
#[derive(Clone, Copy)]
pub struct Done {
    pub sent: u64,
    pub resent: u64,
    pub polled: u64,
}

/// Whether all is to stop where a subscriber has ended that has polled all or not, of so many that were left.
fn ends_all(is_complete: bool, left: u64) -> bool
    ensures { result ≡ ends_all is_complete left }
{
    !is_complete || left <= 1
}

impl RunState {
    /// What the parties of a run share that has so many receivers.
    pub fn new(log: Log, conductor: Conductor, began: Began, receivers: usize) -> RunState
        ensures log { result.log ≡ log }
        ensures conductor { result.conductor ≡ conductor }
    {
        RunState {
            log,
            conductor,
            began,
            stopped: AtomicBool::new(false),
            left: AtomicU64::new(receivers as u64),
            sent: AtomicU64::new(0),
            resent: AtomicU64::new(0),
            polled: AtomicU64::new(0),
        }
    }

    /// Gives the log back.
    pub fn into_log(self) -> Log
        ensures { result ≡ self.log }
    {
        self.log
    }

    /// How many nanoseconds have passed since the begin. The fault is `Device` where the clock can't be read.
    pub fn moment<R: Clock>(&self, rt: &R) -> Result<u64, DeviceError>
        ensures { IfErr result (λ error. error ≡ Device) }
    {
        self.began.moment(rt)
    }

    /// Lets all threads end after their turns.
    pub fn stop(&self) {
        self.stopped.store(true, Ordering::SeqCst);
    }

    /// No thread could be started: that stops all.
    pub fn halt(&self) -> DeviceError
        ensures { result ≡ Device }
    {
        self.stop();
        DeviceError::Device
    }

    pub fn is_stopped(&self) -> bool {
        self.stopped.load(Ordering::SeqCst)
    }

    /// The sender tells how many datagrams it has sent so far.
    pub fn tell_sent(&self, sent: u64, resent: u64) {
        self.sent.store(sent, Ordering::SeqCst);
        self.resent.store(resent, Ordering::SeqCst);
    }

    /// A subscriber tells how many messages more it has polled.
    pub fn tell_polled(&self, more: u64) {
        self.polled.fetch_add(more, Ordering::SeqCst);
    }

    /// A subscriber has ended, with all messages polled or not. All is to stop where it hasn't polled all, or was the last one.
    pub fn leave(&self, is_complete: bool) {
        let left = self.left.fetch_sub(1, Ordering::SeqCst);
        if ends_all(is_complete, left) {
            self.stop();
        }
    }

    pub fn done(&self) -> Done {
        Done {
            sent: self.sent.load(Ordering::SeqCst),
            resent: self.resent.load(Ordering::SeqCst),
            polled: self.polled.load(Ordering::SeqCst),
        }
    }
}
