//! What the thread that reads shares with the one that sends.

ghost use Rattle.std.specs.Prelude.{◌≡◌, IfErr, IfOk};

use crate::offering::reading::{Offered, Reading};
use shared_log::Log;
use std::sync::atomic::{AtomicBool, AtomicU64, Ordering};
use std::sync::{OnceLock, OnceToken};

/// The log, how many messages were accepted and where they end, how the reading ended, once it has, and whether it is to stop.
#[derive(Drop)]
pub struct OfferingState {
    pub log: Log,
    stopped: AtomicBool,
    reading: OnceLock<Reading>,
    tail: AtomicU64,
    messages: AtomicU64,
}

impl OfferingState {
    /// Over this log; nothing was accepted yet.
    pub fn new(log: Log) -> OfferingState
        ensures { result.log ≡ log }
    {
        let start = log.start();
        OfferingState {
            log,
            stopped: AtomicBool::new(false),
            reading: OnceLock::new(),
            tail: AtomicU64::new(start),
            messages: AtomicU64::new(0),
        }
    }

    /// The log, where no thread needs the rest any more.
    pub fn into_log(self) -> Log
        ensures { result ≡ self.log }
    {
        self.log
    }

    /// Lets the thread that reads end at its next turn, if it isn't waiting for input.
    pub fn stop(&self) {
        self.stopped.store(true, Ordering::SeqCst);
    }

    pub(crate) fn is_stopped(&self) -> bool {
        self.stopped.load(Ordering::SeqCst)
    }

    /// So many messages were accepted.
    pub(crate) fn accept(&self, offered: Offered) {
        self.tail.store(offered.tail, Ordering::SeqCst);
        self.messages.store(offered.messages, Ordering::SeqCst);
    }

    /// No message comes any more, since the reading ended like this. It is handed back where an end was told before.
    pub(crate) fn end_input(&self, reading: Reading) -> Result<OnceToken<'_, Reading>, Reading>
        ensures told { IfOk result (λ token. (token.of ≡ self.now.reading.id) × (token.value ≡ reading)) }
        ensures kept { IfErr result (λ back. back ≡ reading) }
    {
        self.reading.try_set(reading)
    }

    /// How the reading ended, for whoever shows that it has.
    pub(crate) fn told<'a>(&'a self, token: &OnceToken<'a, Reading>) -> Reading
        requires { token.now.of ≡ self.now.reading.id }
        ensures { result ≡ token.now.value }
    {
        *self.reading.value(token)
    }

    /// Where the accepted messages end.
    pub fn tail(&self) -> u64 {
        self.tail.load(Ordering::SeqCst)
    }

    /// How many messages were accepted.
    pub fn messages(&self) -> u64 {
        self.messages.load(Ordering::SeqCst)
    }

    /// How the reading ended, if it has.
    pub fn reading(&self) -> Option<Reading> {
        self.reading.get().copied()
    }
}
