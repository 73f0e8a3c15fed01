//! What a log's messages are for C.

ghost use Rattle.std.specs.declared.option.Option.TheVariants.{Some};
ghost use Rattle.pechvang.specs.Messages.{GivesNext, MessagesOpen, TellsPosition};

use crate::codes::{DONE, EMPTY_HANDLE, FRAME, ROOM_TOO_SMALL, WRONG_HANDLE};
use crate::handle::{Handle, put, put_new, take};
use crate::held::Pass;
use cores::{MessagesPass, NoMessage};
use std::alloc::Global;

/// Opens the messages that a reader gets that has found no frame yet, from where it stands on, each of at most so many bytes.
/// Where the answer is 0, the second handle holds them, and the reader's holds nothing.
#[unsafe(no_mangle)]
pub extern "C" fn pv_open_messages(
    alloc: Global,
    reader: &mut Handle,
    greatest: usize,
    messages: &mut Handle,
) -> i32
    ensures { MessagesOpen reader.old.held greatest messages.old.held result reader.new.held messages.new.held }
{
    let Some(mut room) = take(alloc, reader) else {
        return EMPTY_HANDLE;
    };
    match Box::replace(&mut room, Pass::Nothing) {
        Pass::Reader(taken) => match MessagesPass::open_boxed(alloc, taken, greatest) {
            Ok(opened) => {
                put_new(messages, room, Pass::Messages(opened));
                DONE
            }
            Err((fault, taken)) => {
                put_new(reader, room, Pass::Reader(taken));
                fault.code()
            }
        },
        other => {
            put_new(reader, room, other);
            WRONG_HANDLE
        }
    }
}

fn next_by(pass: &mut Pass, room: &mut [u8], length: &mut usize) -> i32
    ensures { GivesNext (Some pass.old) room.old length.old result room.new length.new (Some pass.new) }
{
    match pass {
        Pass::Messages(messages) => match messages.next(room) {
            Ok(size) => {
                *length = size;
                FRAME
            }
            Err(NoMessage::None) => DONE,
            Err(NoMessage::Longer(size)) => {
                *length = size;
                ROOM_TOO_SMALL
            }
            Err(NoMessage::Lost(fault)) => fault.code(),
        },
        Pass::Nothing
        | Pass::Opened(_)
        | Pass::Publisher(_)
        | Pass::Claim(_)
        | Pass::Reader(_)
        | Pass::Keeper(_)
        | Pass::Subscriber(_)
        | Pass::Sender(_) => WRONG_HANDLE,
    }
}

/// Reads on to the next message, which is written to the room's front, and its length. The answer is 1 if there is one, and 0
/// if none is whole yet. One that is longer than the room is told by its length, and waits for the next call. One that is longer
/// than the greatest, or for which memory is refused, is lost, and the next call goes on behind it.
#[unsafe(no_mangle)]
pub extern "C" fn pv_next_message(
    alloc: Global,
    messages: &mut Handle,
    room: &mut [u8],
    length: &mut usize,
) -> i32
    ensures { GivesNext messages.old.held room.old length.old result room.new length.new messages.new.held }
{
    let Some(mut pass) = take(alloc, messages) else {
        return EMPTY_HANDLE;
    };
    let code = next_by(&mut pass, room, length);
    put(messages, pass);
    code
}

fn position_by(pass: &mut Pass, position: &mut u64) -> i32
    ensures { TellsPosition (Some pass.old) position.old result position.new (Some pass.new) }
{
    match pass {
        Pass::Messages(messages) => {
            *position = messages.position();
            DONE
        }
        Pass::Nothing
        | Pass::Opened(_)
        | Pass::Publisher(_)
        | Pass::Claim(_)
        | Pass::Reader(_)
        | Pass::Keeper(_)
        | Pass::Subscriber(_)
        | Pass::Sender(_) => WRONG_HANDLE,
    }
}

/// Writes where the reader of the messages stands: behind all that was given, and behind one that waits.
#[unsafe(no_mangle)]
pub extern "C" fn pv_messages_position(
    alloc: Global,
    messages: &mut Handle,
    position: &mut u64,
) -> i32
    ensures { TellsPosition messages.old.held position.old result position.new messages.new.held }
{
    let Some(mut pass) = take(alloc, messages) else {
        return EMPTY_HANDLE;
    };
    let code = position_by(&mut pass, position);
    put(messages, pass);
    code
}
