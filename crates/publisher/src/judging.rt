//! How the reading ended, why a publisher goes on no more by that, and how its end was judged.

ghost use Rattle.std.specs.Prelude.{◌≡◌, true, IfSome, OnErr, OnOk};
ghost use Rattle.publisher.specs.Judging.{IsStop, end_in, fault_in, input_fault, messages_in, reading_fault, stream_end_in, tail_in};
ghost use Rattle.publisher.specs.Progress.{with_fault};

use crate::fault::PublishFault;
use crate::offering::{Reading, ReadingEnd};
use crate::progress::Progress;
use crate::telling::{Line, ToldShortfall, tell};
use peer::{Ending, StreamEnd};
use std::io::Write;

/// How a publisher ends by whom it has heard, and how the reading had ended then, if it had.
#[derive(Clone, Copy)]
pub struct Judged {
    pub ending: Ending,
    pub reading: Option<Reading>,
    /// The line that said why it ends short, where it does.
    pub told: Option<ToldShortfall>,
}

/// Why the reading stopped, if that wasn't the input's end.
pub fn fault_in(reading: &Option<Reading>) -> Option<PublishFault>
    ensures fault { result ≡ fault_in reading.now }
    ensures stops { IfSome result (λ fault. ∥ IsStop fault ∥₁) }
{
    match *reading {
        None => None,
        Some(ref reading) => match reading.ended {
            Ok(_) => None,
            Err(fault) => Some(PublishFault::from(fault)),
        },
    }
}

/// The stream's end that is announced, if the reading has ended, and wasn't stopped: where the accepted messages end. It is broken off
/// there where the reading ended by a fault.
pub fn stream_end_in(reading: &Option<Reading>) -> Option<StreamEnd>
    ensures { result ≡ stream_end_in reading.now }
{
    match *reading {
        None => None,
        Some(ref reading) => {
            let position = reading.offered.tail;
            match reading.ended {
                Ok(ReadingEnd::Stopped) => None,
                Ok(ReadingEnd::All) => Some(StreamEnd {
                    position,
                    broken: false,
                }),
                Err(_) => Some(StreamEnd {
                    position,
                    broken: true,
                }),
            }
        }
    }
}

/// Its position.
pub fn end_in(reading: &Option<Reading>) -> Option<u64>
    ensures { result ≡ end_in reading.now }
{
    match stream_end_in(reading) {
        None => None,
        Some(end) => Some(end.position),
    }
}

/// How many messages were accepted: as the reading says, once it has ended.
pub fn messages_in(reading: &Option<Reading>, messages: u64) -> u64
    ensures { result ≡ messages_in reading.now messages }
{
    match *reading {
        None => messages,
        Some(ref reading) => reading.offered.messages,
    }
}

/// Where the accepted messages end, in bytes of the stream: as the reading says, once it has ended.
pub fn tail_in(reading: &Option<Reading>, tail: u64) -> u64
    ensures { result ≡ tail_in reading.now tail }
{
    match *reading {
        None => tail,
        Some(ref reading) => reading.offered.tail,
    }
}

/// Tells once that no message comes any more, where messages came before. Where none did, that is the publisher's fault.
fn check_input<E: Write>(
    progress: &mut Progress,
    fault: PublishFault,
    messages: u64,
    errors: &mut E,
) -> Result<(), PublishFault>
    ensures stops { result ≡ input_fault fault messages }
    ensures told { OnOk result (progress.new ≡ record progress.old { faulted = true }) }
    ensures kept { OnErr result (progress.new ≡ progress.old) }
{
    if messages == 0 {
        return Err(fault);
    }
    if !progress.faulted {
        progress.faulted = true;
        let _ = tell(errors, None, Line::BrokenOff(messages));
    }
    Ok(())
}

/// The same for how the reading ended, if it has: it goes on where that was no fault.
pub fn check_reading<E: Write>(
    progress: &mut Progress,
    reading: &Option<Reading>,
    messages: u64,
    errors: &mut E,
) -> Result<(), PublishFault>
    ensures stops { result ≡ reading_fault (fault_in reading.now) messages }
    ensures told { OnOk result (progress.new ≡ with_fault (fault_in reading.now) progress.old) }
    ensures kept { OnErr result (progress.new ≡ progress.old) }
{
    match fault_in(reading) {
        None => Ok(()),
        Some(fault) => check_input(progress, fault, messages, errors),
    }
}
