//! A writer of lines that never waits for the output.

use crate::ledger::Ledger;
use crate::shared::Shared;
use std::alloc::{AllocError, Global};
use std::io::{Error, ErrorKind, Write};
use std::sync::{Arc, Wait};
use std::thread::Threads;
use std::time::{Clock, Duration};
use std::{io, mem, thread};

/// How many times it is looked whether all was written, before the program ends.
const LOOKS: u32 = 200;

/// How long from one such look to the next, in milliseconds.
const PAUSE: u64 = 1;

/// How lines get to the output.
#[derive(Drop)]
enum Way {
    /// By a thread that owns the output.
    Thread(Arc<Shared, Global>),
    /// In place, since no thread can be had.
    Direct,
}

/// A writer of lines. What is written up to a line feed is a line; it is shown by a thread that owns the output, or
/// counted where it repeats the line before it, or lost where that thread's queue is full. No call but `finish` waits for the output,
/// but where memory or the thread was refused: then lines are written in place.
#[derive(Drop)]
pub struct ErrorLines<R, E> {
    rt: R,
    alloc: Global,
    errors: E,
    way: Way,
    ledger: Ledger,
    line: Vec<u8>,
}

/// Starts a thread that writes to this output what comes by the queue. The thread isn't joined: where the output
/// blocks, the process's end ends it. The error comes where memory or the thread was refused.
fn start<
    R: Threads + Wait + Clock + Copy + Send + 'static,
    E: Write + Send + Copy + Drop + 'static,
>(rt: &R, alloc: Global, errors: &E) -> Result<Arc<Shared, Global>, AllocError> {
    let shared = Arc::new(alloc, Shared::new(alloc)?)?;
    let theirs = Arc::try_clone(&shared)?;
    let (own, mut output) = (*rt, *errors);
    thread::spawn(rt, move || theirs.write_all(&own, &mut output))?;
    Ok(shared)
}

impl<
    R: Threads + Wait + Clock + Copy + Send + 'static,
    E: Write + Send + Copy + Drop + 'static,
> ErrorLines<R, E> {
    /// Lines for this output, and the thread that writes them.
    pub fn new(rt: &R, alloc: Global, errors: E) -> ErrorLines<R, E> {
        let way = match start(rt, alloc, &errors) {
            Ok(shared) => Way::Thread(shared),
            Err(_) => Way::Direct,
        };
        ErrorLines {
            rt: *rt,
            alloc,
            errors,
            way,
            ledger: Ledger::new(),
            line: Vec::new(alloc),
        }
    }

    /// Ends the line that stands, tells what was counted, and waits until all is written, a fifth of a second at the most.
    pub fn finish(mut self) {
        if !self.line.is_empty() {
            self.tell();
        }
        self.tell_counts();
        let Way::Thread(shared) = &self.way else {
            return;
        };
        shared.close();
        for _ in 0..LOOKS {
            if shared.is_done() {
                return;
            }
            thread::sleep(&self.rt, Duration::from_millis(PAUSE));
        }
    }
}

impl<R: Wait, E: Write> ErrorLines<R, E> {
    /// Sends a text on its way. Whether it found room.
    fn send(&mut self, text: Vec<u8>) -> bool {
        match &self.way {
            Way::Thread(shared) => shared.queue.push(&self.rt, text).is_ok(),
            _ => self.errors.write_all(&text).is_ok(),
        }
    }

    /// Shows what the counts tell, if they tell anything.
    fn tell_counts(&mut self) {
        if let Ok(text) = self.ledger.notices(self.alloc) {
            if !text.is_empty() {
                self.send(text);
            }
        }
    }

    /// Shows or counts the line that stands.
    fn tell(&mut self) {
        let line = mem::replace(&mut self.line, Vec::new(self.alloc));
        if self.ledger.is_repeat(&line) {
            self.ledger.repeat();
            return;
        }
        let shown = match self.ledger.text(self.alloc, &line) {
            Ok(text) => self.send(text),
            Err(_) => false,
        };
        if shown {
            self.ledger.show(line);
        } else {
            self.ledger.lose();
        }
    }
}

impl<R: Wait, E: Write> Write for ErrorLines<R, E> {
    /// Takes all bytes. The error comes where memory was refused to a byte of the line that stands.
    fn write(&mut self, bytes: &[u8]) -> io::Result<usize> {
        for byte in bytes {
            if *byte == b'\n' {
                self.tell();
            } else if self.line.push(*byte).is_err() {
                return Err(Error::from(ErrorKind::OutOfMemory));
            }
        }
        Ok(bytes.len())
    }

    fn flush(&mut self) -> io::Result<()> {
        Ok(())
    }
}
