//! What a subscriber's core does for C.

ghost use Rattle.std.specs.declared.option.Option.TheVariants.{Some};
ghost use Rattle.pechvang.specs.Ends.{PollsInto, SubscriberOpens, TakesIn};

use crate::codes::{DONE, EMPTY_HANDLE, NO_MEMORY, WRONG_HANDLE};
use crate::handle::{Handle, put, take};
use crate::held::Pass;
use crate::written::told;
use cores::{SubscriberPass, Subscription};
use std::alloc::Global;

/// Opens a subscriber of a stream, which has met nothing yet. Where the answer is 0, the handle holds it.
#[unsafe(no_mangle)]
pub extern "C" fn pv_open_subscriber(
    alloc: Global,
    config: &Subscription,
    subscriber: &mut Handle,
) -> i32
    ensures { SubscriberOpens config.now subscriber.old.held result subscriber.new.held }
{
    let Ok(boxed) = Box::new(alloc, SubscriberPass::open(alloc, config)) else {
        return NO_MEMORY;
    };
    let Ok(pass) = Box::new(alloc, Pass::Subscriber(boxed)) else {
        return NO_MEMORY;
    };
    put(subscriber, pass);
    DONE
}

fn take_by(
    pass: &mut Pass,
    datagram: &[u8],
    now: u64,
    outcomes: &mut [i32],
    frames: &mut usize,
) -> i32
    ensures { TakesIn (Some pass.old) datagram.now now outcomes.old frames.old result outcomes.new frames.new (Some pass.new) }
{
    match pass {
        Pass::Subscriber(subscriber) => match subscriber.on_datagram(datagram, now, outcomes) {
            Ok(count) => {
                *frames = count;
                DONE
            }
            Err(fault) => fault.code(),
        },
        Pass::Nothing
        | Pass::Opened(_)
        | Pass::Publisher(_)
        | Pass::Claim(_)
        | Pass::Reader(_)
        | Pass::Messages(_)
        | Pass::Keeper(_)
        | Pass::Sender(_) => WRONG_HANDLE,
    }
}

/// Takes a datagram at a moment in nanoseconds. Where the answer is 0, the count of its frames is written, and what became of
/// each of them, as far as there is room. Where memory is refused nothing has changed: it may be handed in again.
#[unsafe(no_mangle)]
pub extern "C" fn pv_receive(
    alloc: Global,
    subscriber: &mut Handle,
    datagram: &[u8],
    now: u64,
    outcomes: &mut [i32],
    frames: &mut usize,
) -> i32
    ensures { TakesIn subscriber.old.held datagram.now now outcomes.old frames.old result outcomes.new frames.new subscriber.new.held }
{
    let Some(mut pass) = take(alloc, subscriber) else {
        return EMPTY_HANDLE;
    };
    let code = take_by(&mut pass, datagram, now, outcomes, frames);
    put(subscriber, pass);
    code
}

fn poll_by(pass: &mut Pass, room: &mut [u8], length: &mut usize) -> i32
    ensures { PollsInto (Some pass.old) room.old length.old result room.new length.new (Some pass.new) }
{
    match pass {
        Pass::Subscriber(subscriber) => told(subscriber.poll(room), length),
        Pass::Nothing
        | Pass::Opened(_)
        | Pass::Publisher(_)
        | Pass::Claim(_)
        | Pass::Reader(_)
        | Pass::Messages(_)
        | Pass::Keeper(_)
        | Pass::Sender(_) => WRONG_HANDLE,
    }
}

/// Reads on to the next message, which is written to the room's front, and its length. The answer is 1 if there is one, and 0
/// if none is whole yet. A room that is shorter than the greatest message is refused, and nothing is read.
#[unsafe(no_mangle)]
pub extern "C" fn pv_poll(
    alloc: Global,
    subscriber: &mut Handle,
    room: &mut [u8],
    length: &mut usize,
) -> i32
    ensures { PollsInto subscriber.old.held room.old length.old result room.new length.new subscriber.new.held }
{
    let Some(mut pass) = take(alloc, subscriber) else {
        return EMPTY_HANDLE;
    };
    let code = poll_by(&mut pass, room, length);
    put(subscriber, pass);
    code
}
