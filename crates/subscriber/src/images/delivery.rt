//! A subscriber's cycle: messages are polled and written, and then its device is heard and answered.

ghost use Rattle.std.specs.Prelude.{◌≡◌, min, IfErr, IfOk};
ghost use Rattle.subscriber.specs.Deliveries.{Delivers, Ends, Steps, Stops, StopsAtOne, WritesAndNotes};
ghost use Rattle.subscriber.specs.declared.images.delivery.DeliveryFault.TheVariants.{Failed};

use crate::images::follower::Follower;
use agents::{Duty, REPLY};
use assembler::AssemblyError;
use endpoint::{Datagrams, DeviceError};
use messages::{Form, OutputFailed, write_message};
use receiver::{PollError, Subscriber};
use std::io::Write;

/// How many messages a cycle polls at the most.
pub(crate) const CYCLE_MESSAGES: usize = 256;

/// What a cycle did.
#[derive(Clone, Copy, Debug, PartialEq, Eq)]
pub struct Delivered {
    /// How many messages were polled and written, 0 to 256.
    pub messages: usize,
    /// Whether a datagram came or went.
    pub busy: bool,
}

/// Why a cycle ended before its end.
#[derive(Clone, Copy, Debug, PartialEq, Eq)]
pub enum DeliveryFault {
    /// The output failed, with the system's number, if any: the last message is written in part, or all are and the flush failed.
    /// Nothing was heard or sent.
    Output(Option<i32>),
    /// The assembler refused a frame, and a message is lost. Nothing was heard or sent.
    Message(AssemblyError),
    /// Behind the writing the device failed, or memory was refused to a datagram, which is lost. The next cycle may be called.
    Failed(DeviceError),
}

impl From<DeviceError> for DeliveryFault {
    ghost from_gives = { λ from fault. fault ≡ Failed from };

    fn from(error: DeviceError) -> DeliveryFault {
        DeliveryFault::Failed(error)
    }
}

/// Polls once, and writes what that gave. Whether it was a message.
fn write_next<W: Write>(
    form: Form,
    subscriber: &mut Subscriber,
    output: &mut W,
) -> Result<bool, DeliveryFault>
    ensures step { IfOk result (λ any. Steps form subscriber.old (W.contents output.old) any subscriber.new (W.contents output.new)) }
    ensures fault { IfErr result (λ f. StopsAtOne form f subscriber.old (W.contents output.old) subscriber.new (W.contents output.new)) }
{
    match subscriber.poll() {
        Ok(Some(message)) => {
            let written = write_message(form, message.bytes.as_slice(), output);
            if let Err(OutputFailed(number)) = written {
                return Err(DeliveryFault::Output(number));
            }
            Ok(true)
        }
        Ok(None) => Ok(false),
        Err(PollError::NoImage) => Ok(false),
        Err(PollError::Unassembled(error)) => Err(DeliveryFault::Message(error)),
    }
}

/// Polls messages until there is none, 256 and `most` at the most, writes each, and flushes the output. The answer is how many there
/// were. A fault is `Output` or `Message`.
fn write_polled<W: Write>(
    form: Form,
    most: usize,
    subscriber: &mut Subscriber,
    output: &mut W,
) -> Result<usize, DeliveryFault>
    ensures delivers { IfOk result (λ n. Delivers form (min 256 most) subscriber.old (W.contents output.old) n subscriber.new (W.contents output.new)) }
    ensures fault { IfErr result (λ f. Stops form (min 256 most) f subscriber.old (W.contents output.old) subscriber.new (W.contents output.new)) }
{
    let limit = CYCLE_MESSAGES.min(most);
    let mut messages = limit;
    for count in 0..limit {
        if !write_next(form, subscriber, output)? {
            messages = count;
            break;
        }
    }
    if let Err(error) = output.flush() {
        return Err(DeliveryFault::Output(error.raw_os_error()));
    }
    Ok(messages)
}

/// A cycle, at a moment in nanoseconds: messages are polled, 256 and `most` at the most, written and flushed; behind that comes
/// a cycle of the duty, in which the end is noted that is told.
pub(crate) fn cycle<W: Write, D: Datagrams>(
    form: Form,
    most: usize,
    follower: &mut Follower,
    output: &mut W,
    duty: &mut Duty<D>,
    now: u64,
) -> Result<Delivered, DeliveryFault>
    requires size { duty.old.mtu ≡ REPLY }
    ensures done { IfOk result (λ d. WritesAndNotes form most now (D.tells duty.old.device) follower.old (W.contents output.old) (D.device duty.old.device) d follower.new (W.contents output.new) (D.device duty.new.device)) }
    ensures fault { IfErr result (λ f. Ends form most now (D.tells duty.old.device) (duty.new ≡ duty.old) f follower.old.subscriber (W.contents output.old) (D.device duty.old.device) follower.new.subscriber (W.contents output.new) (D.device duty.new.device)) }
    ensures size { duty.new.mtu ≡ duty.old.mtu }
    ensures still_tells { D.tells duty.old.device → D.tells duty.new.device }
{
    let messages = write_polled(form, most, &mut follower.subscriber, output)?;
    let busy = duty.cycle(follower, now)?;
    Ok(Delivered { messages, busy })
}
