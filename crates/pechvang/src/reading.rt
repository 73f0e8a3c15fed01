//! What a reader does for C.

ghost use Rattle.std.specs.Prelude.{◌≡◌};
ghost use Rattle.std.specs.declared.option.Option.TheVariants.{Some};
ghost use Rattle.pechvang.specs.Reading.{Advances, ReadsNext, frame_of};

use crate::codes::{DONE, EMPTY_HANDLE, FRAME, ROOM_TOO_SMALL, WRONG_HANDLE};
use crate::handle::{Handle, put, take};
use crate::held::Pass;
use position::{FrameHead, FrameKind};
use shared_log::Unread;
use std::alloc::Global;

/// A frame of the stream.
#[repr(C)]
#[derive(Clone, Copy, Debug, PartialEq, Eq)]
pub struct Frame {
    /// The position at which it starts.
    pub position: u64,
    /// The bytes of its payload; 0 of a padding.
    pub length: usize,
    /// 128 where a message begins, 64 where one ends, 192 of a whole one and of a padding.
    pub flags: u8,
    /// Whether it has a message, or a part of one; else it is a padding.
    pub is_data: bool,
}

fn told(head: &FrameHead) -> Frame
    ensures { result ≡ frame_of head.now }
{
    match head.kind {
        FrameKind::Data => Frame {
            position: head.start,
            length: (head.frame_length as usize).saturating_sub(32),
            flags: head.flags,
            is_data: true,
        },
        FrameKind::Pad => Frame {
            position: head.start,
            length: 0,
            flags: head.flags,
            is_data: false,
        },
    }
}

fn next_by(pass: &mut Pass, room: &mut [u8], frame: &mut Frame) -> i32
    ensures { ReadsNext (Some pass.old) room.old frame.old result room.new frame.new (Some pass.new) }
{
    match pass {
        Pass::Reader(reader) => match reader.next(room) {
            Ok(head) => {
                *frame = told(&head);
                FRAME
            }
            Err(Unread::None) => DONE,
            Err(Unread::Longer(head)) => {
                *frame = told(&head);
                ROOM_TOO_SMALL
            }
        },
        Pass::Nothing
        | Pass::Opened(_)
        | Pass::Publisher(_)
        | Pass::Claim(_)
        | Pass::Messages(_)
        | Pass::Keeper(_)
        | Pass::Subscriber(_)
        | Pass::Sender(_) => WRONG_HANDLE,
    }
}

/// Reads the frame where the reader stands, straight to the front of the room; the reader stays. The answer is 1 if there
/// is one, and 0 if there is none yet. One that is longer than the room is told, and stays unread.
#[unsafe(no_mangle)]
pub extern "C" fn pv_next(
    alloc: Global,
    reader: &mut Handle,
    room: &mut [u8],
    frame: &mut Frame,
) -> i32
    ensures { ReadsNext reader.old.held room.old frame.old result room.new frame.new reader.new.held }
{
    let Some(mut pass) = take(alloc, reader) else {
        return EMPTY_HANDLE;
    };
    let code = next_by(&mut pass, room, frame);
    put(reader, pass);
    code
}

fn advance_by(pass: &mut Pass) -> i32
    ensures { Advances (Some pass.old) result (Some pass.new) }
{
    match pass {
        Pass::Reader(reader) => { if reader.advance() { FRAME } else { DONE } }
        Pass::Nothing
        | Pass::Opened(_)
        | Pass::Publisher(_)
        | Pass::Claim(_)
        | Pass::Messages(_)
        | Pass::Keeper(_)
        | Pass::Subscriber(_)
        | Pass::Sender(_) => WRONG_HANDLE,
    }
}

/// Goes behind the frame that was read. The answer is 1 if one was, and else 0.
#[unsafe(no_mangle)]
pub extern "C" fn pv_advance(alloc: Global, reader: &mut Handle) -> i32
    ensures { Advances reader.old.held result reader.new.held }
{
    let Some(mut pass) = take(alloc, reader) else {
        return EMPTY_HANDLE;
    };
    let code = advance_by(&mut pass);
    put(reader, pass);
    code
}
