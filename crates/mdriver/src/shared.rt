//! What the teller and the thread that writes share.

use crossbeam_queue::ArrayQueue;
use std::alloc::{AllocError, Global};
use std::io::Write;
use std::sync::Wait;
use std::sync::atomic::{AtomicBool, Ordering};
use std::thread;
use std::time::{Clock, Duration};

/// How many texts the queue holds.
const ROOM: usize = 256;

/// How long the thread that writes rests where there is nothing to write, in milliseconds.
const PAUSE: u64 = 1;

/// The texts to be written, whether no more will come, and whether all that came was written.
#[derive(Drop)]
pub struct Shared {
    pub queue: ArrayQueue<Vec<u8>>,
    closed: AtomicBool,
    done: AtomicBool,
}

impl Shared {
    pub fn new(alloc: Global) -> Result<Shared, AllocError> {
        Ok(Shared {
            queue: ArrayQueue::new(alloc, ROOM)?,
            closed: AtomicBool::new(false),
            done: AtomicBool::new(false),
        })
    }

    /// No more texts will come.
    pub fn close(&self) {
        self.closed.store(true, Ordering::SeqCst);
    }

    /// Whether all that came was written.
    pub fn is_done(&self) -> bool {
        self.done.load(Ordering::SeqCst)
    }

    /// Writes what comes, until no more will.
    pub fn write_all<R: Wait + Clock, E: Write>(&self, rt: &R, errors: &mut E) {
        for _ in rt.forever() {
            let closed = self.closed.load(Ordering::SeqCst);
            match self.queue.pop(rt) {
                Some(text) => {
                    let _ = errors.write_all(&text);
                    let _ = errors.flush();
                }
                None if closed => {
                    self.done.store(true, Ordering::SeqCst);
                    return;
                }
                None => thread::sleep(rt, Duration::from_millis(PAUSE)),
            }
        }
    }
}
