//! What a sender's core does for C.

ghost use Rattle.std.specs.declared.option.Option.TheVariants.{Some};
ghost use Rattle.pechvang.specs.Ends.{HearsOne, SenderOpens};

use crate::codes::{DONE, EMPTY_HANDLE, WRONG_HANDLE};
use crate::handle::{Handle, put, put_new, take};
use crate::held::Pass;
use cores::SenderPass;
use std::alloc::Global;

/// Opens a sender of what a reader reads, from where that stands on: to one receiver (0), whatever its id, or to a group of so
/// many, 1 to 8, with the ids from 0 on. Where the answer is 0, the second handle holds it, and the reader's holds nothing.
#[unsafe(no_mangle)]
pub extern "C" fn pv_open_sender(
    alloc: Global,
    reader: &mut Handle,
    group: u32,
    sender: &mut Handle,
) -> i32
    ensures { SenderOpens reader.old.held group sender.old.held result reader.new.held sender.new.held }
{
    let Some(mut room) = take(alloc, reader) else {
        return EMPTY_HANDLE;
    };
    match Box::replace(&mut room, Pass::Nothing) {
        Pass::Reader(taken) => match SenderPass::open_boxed(alloc, taken, group) {
            Ok(opened) => {
                put_new(sender, room, Pass::Sender(opened));
                DONE
            }
            Err((fault, taken)) => {
                put_new(reader, room, Pass::Reader(taken));
                fault.code()
            }
        },
        other => {
            put_new(reader, room, other);
            WRONG_HANDLE
        }
    }
}

fn hear_by(pass: &mut Pass, datagram: &[u8], now: u64, outcome: &mut i32) -> i32
    ensures { HearsOne (Some pass.old) datagram.now now outcome.old result outcome.new (Some pass.new) }
{
    match pass {
        Pass::Sender(sender) => match sender.on_datagram(datagram, now) {
            Ok(number) => {
                *outcome = number;
                DONE
            }
            Err(fault) => fault.code(),
        },
        Pass::Nothing
        | Pass::Opened(_)
        | Pass::Publisher(_)
        | Pass::Claim(_)
        | Pass::Reader(_)
        | Pass::Messages(_)
        | Pass::Keeper(_)
        | Pass::Subscriber(_) => WRONG_HANDLE,
    }
}

/// Takes a datagram at a moment in nanoseconds. Where the answer is 0, what became of it is written. What goes out for it is
/// given by `pv_next_datagram`: while some of it is left, no other is taken.
#[unsafe(no_mangle)]
pub extern "C" fn pv_hear(
    alloc: Global,
    sender: &mut Handle,
    datagram: &[u8],
    now: u64,
    outcome: &mut i32,
) -> i32
    ensures { HearsOne sender.old.held datagram.now now outcome.old result outcome.new sender.new.held }
{
    let Some(mut pass) = take(alloc, sender) else {
        return EMPTY_HANDLE;
    };
    let code = hear_by(&mut pass, datagram, now, outcome);
    put(sender, pass);
    code
}
