//! What both cores do for C.

ghost use Rattle.std.specs.declared.option.Option.TheVariants.{Some};
ghost use Rattle.pechvang.specs.Ends.{GivesDatagram, TicksAt};

use crate::codes::{DONE, EMPTY_HANDLE, WRONG_HANDLE};
use crate::handle::{Handle, put, take};
use crate::held::Pass;
use crate::written::told;
use std::alloc::Global;

fn tick_by(pass: &mut Pass, now: u64) -> i32
    ensures { TicksAt (Some pass.old) now result (Some pass.new) }
{
    match pass {
        Pass::Subscriber(subscriber) => match subscriber.tick(now) {
            Ok(()) => DONE,
            Err(fault) => fault.code(),
        },
        Pass::Sender(sender) => match sender.tick(now) {
            Ok(()) => DONE,
            Err(fault) => fault.code(),
        },
        Pass::Nothing
        | Pass::Opened(_)
        | Pass::Publisher(_)
        | Pass::Claim(_)
        | Pass::Reader(_)
        | Pass::Messages(_)
        | Pass::Keeper(_) => WRONG_HANDLE,
    }
}

/// Takes a moment in nanoseconds, of any clock that doesn't go back. What goes out then is given by `pv_next_datagram`: while
/// some of it is left, no other moment is taken.
#[unsafe(no_mangle)]
pub extern "C" fn pv_tick(alloc: Global, core: &mut Handle, now: u64) -> i32
    ensures { TicksAt core.old.held now result core.new.held }
{
    let Some(mut pass) = take(alloc, core) else {
        return EMPTY_HANDLE;
    };
    let code = tick_by(&mut pass, now);
    put(core, pass);
    code
}

fn next_by(pass: &mut Pass, room: &mut [u8], length: &mut usize) -> i32
    ensures { GivesDatagram (Some pass.old) room.old length.old result room.new length.new (Some pass.new) }
{
    match pass {
        Pass::Subscriber(subscriber) => told(subscriber.next_datagram(room), length),
        Pass::Sender(sender) => told(sender.next_datagram(room), length),
        Pass::Nothing
        | Pass::Opened(_)
        | Pass::Publisher(_)
        | Pass::Claim(_)
        | Pass::Reader(_)
        | Pass::Messages(_)
        | Pass::Keeper(_) => WRONG_HANDLE,
    }
}

/// Writes the next datagram that is to be sent to the room's front, and its length. The answer is 1 if there is one, and 0 if
/// none is left. One that is longer than the room stays.
#[unsafe(no_mangle)]
pub extern "C" fn pv_next_datagram(
    alloc: Global,
    core: &mut Handle,
    room: &mut [u8],
    length: &mut usize,
) -> i32
    ensures { GivesDatagram core.old.held room.old length.old result room.new length.new core.new.held }
{
    let Some(mut pass) = take(alloc, core) else {
        return EMPTY_HANDLE;
    };
    let code = next_by(&mut pass, room, length);
    put(core, pass);
    code
}
