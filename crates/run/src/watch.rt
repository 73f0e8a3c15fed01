//! What the starting thread does while the others run.

ghost use Rattle.std.specs.Prelude.{◌≡◌, Some};
ghost use Rattle.std.specs.Arc.{arc_value};
ghost use Rattle.run.specs.Doings.{done_since, done_text, readings_text};

use counters::{CounterReader, Counters, Readings};
use run_parties::{Done, RunState};
use std::io::Write;
use std::sync::{Arc, Wait};
use std::time::{Clock, Duration};
use std::{fmt, thread};

/// How often it looks whether all is to stop, in milliseconds, and after how many looks it tells what was done.
const LOOK: u64 = 1;

const LOOKS: u32 = 1000;

/// A receiver's counters, and a reader of them.
#[derive(Drop)]
pub struct Shown {
    pub counters: Arc<Counters>,
    pub reader: CounterReader,
    pub ghost same: { reader.counters ≡ arc_value counters },
}

impl Shown {
    /// Reads them.
    fn read<R: Wait>(&mut self, rt: &R) -> Readings {
        self.counters.read(rt, &mut self.reader)
    }
}

/// Where a line of all receivers' counters goes once a second, if they are to be shown.
#[derive(Drop)]
pub struct Watch<E> {
    pub errors: E,
    /// By the receivers' numbers.
    pub shown: Vec<Shown>,
    pub shows: bool,
}

/// What was done between two looks, modulo 2^64.
fn done_since(before: Done, done: Done) -> Done
    ensures { result ≡ done_since before done }
{
    Done {
        sent: done.sent.wrapping_sub(before.sent),
        resent: done.resent.wrapping_sub(before.resent),
        polled: done.polled.wrapping_sub(before.polled),
    }
}

/// A receiver's positions, as a line has them.
#[derive(Clone, Copy)]
struct ReadingsText(Readings);

impl fmt::Display for ReadingsText {
    ghost output = { λ text. Some (readings_text text.0) };

    fn fmt<W: fmt::Write>(&self, f: &mut fmt::Formatter<W>) -> fmt::Result {
        let Readings {
            least,
            rebuilt,
            high_water,
        } = self.0;
        write!(f, "least {least} rebuilt {rebuilt} high-water {high_water}")
    }
}

/// What was done, as a line has it.
#[derive(Clone, Copy)]
struct DoneText(Done);

impl fmt::Display for DoneText {
    ghost output = { λ text. Some (done_text text.0) };

    fn fmt<W: fmt::Write>(&self, f: &mut fmt::Formatter<W>) -> fmt::Result {
        let Done {
            sent,
            resent,
            polled,
        } = self.0;
        write!(f, "sent {sent} resent {resent} polled {polled}")
    }
}

impl<E: Write> Watch<E> {
    /// A line: the three positions of each receiver, and what was done since the line before.
    fn tell<R: Wait>(&mut self, rt: &R, state: &RunState, before: Done) -> Done {
        let done = state.done();
        for shown in self.shown.iter_mut() {
            let readings = ReadingsText(shown.read(rt));
            let _ = write!(self.errors, "{readings} ");
        }
        let since = DoneText(done_since(before, done));
        let _ = writeln!(self.errors, "{since}");
        done
    }

    /// Waits until all is to stop, and tells once a second what was done, if it is to be shown.
    pub(crate) fn until_stopped<R: Wait + Clock>(&mut self, rt: &R, state: &RunState) {
        let mut done = state.done();
        let mut looks: u32 = 0;
        for _ in rt.forever() {
            if state.is_stopped() {
                return;
            }
            let _ = thread::sleep(rt, Duration::from_millis(LOOK));
            looks = looks.wrapping_add(1);
            if looks >= LOOKS && self.shows {
                looks = 0;
                done = self.tell(rt, state, done);
            }
        }
    }
}
