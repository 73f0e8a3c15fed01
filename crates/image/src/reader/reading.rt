//! A reader reads the frame where it stands, and moves on.

ghost use Rattle.std.specs.Prelude.{◌≡◌, ℕ, ◌*◌, ◌^◌, ◌≤◌, [], List, length, IfNone, IfSome};
ghost use Rattle.theory.specs.Placed.{payload_of};
ghost use Rattle.position.specs.Heads.{head_of};
ghost use Rattle.image_rule.specs.Frames.{Says, byte_place, end_of, frame_said, ring};
ghost use Rattle.image_rule.specs.Reads.{IsFound, first_of};
ghost use Rattle.image.specs.Finding.{FindsFrame, FindsHere, FindsNothing, PassesOn};
ghost use Rattle.image.specs.Handles.{IsReaderOf, position_of};
ghost use Rattle.image.specs.Parts.{IsPartOf};
ghost use Rattle.image.specs.Reading.{MayAdvance};

use crate::handler::FrameHandler;
use crate::reader::{ImageReader, Standing, look_as, move_as};
use crate::words::{Image, Words};
use block::Block;
use image_rule::Picked;
use position::{FrameHead, FrameKind, align32};
use region::ReadAccess;
use std::marker::Brand;

/// The head of the frame at a unit, whose bytes begin here, that a part shows: its first eight bytes say it.
fn shown_head<N: Picked>(image: &Words, part: &ReadAccess, unit: u64, at: usize) -> FrameHead
    requires says { Says N.frame × (N.frame.unit ≡ unit) }
    requires few { unit ≤ 2 ^ 56 }
    requires at { at ≡ byte_place (ring image.now.key) N.frame.unit }
    requires part { IsPartOf (ring image.now.key) image.now.table.shared.key.region N.frame part.now }
    ensures { result ≡ head_of (32 * unit) (frame_said N.frame.bytes) }
{
    let _ = &image.table;
    let bytes = part.bytes(&image.region, image.start, at, 8);
    let length = [bytes[0], bytes[1], bytes[2], bytes[3]];
    FrameHead {
        start: 32 * unit,
        kind: if bytes[6] == 0 {
            FrameKind::Pad
        } else {
            FrameKind::Data
        },
        flags: bytes[5],
        frame_length: u32::from_le_bytes(length),
    }
}

/// The payload of the frame that a part shows, whose bytes begin here, and whose payload has so many, where it lies.
fn shown_payload<'a, N: Picked>(
    image: &'a Words,
    part: &'a ReadAccess,
    at: usize,
    count: usize,
) -> &'a [u8]
    requires says { Says N.frame }
    requires at { at ≡ byte_place (ring image.now.key) N.frame.unit }
    requires part { IsPartOf (ring image.now.key) image.now.table.shared.key.region N.frame part.now }
    requires count { count ≡ length (payload_of (frame_said N.frame.bytes)) }
    requires low { count ≤ 65472 }
    ensures { result.now ≡ payload_of (frame_said N.frame.bytes) }
{
    let _ = &image.table;
    &part.bytes(&image.region, image.start, at, 32 + count)[32..]
}

/// Hands the frame that the reader found last, of which it has its part and whose bytes begin here, to who takes it.
fn read_held<N: Picked, H: FrameHandler>(
    image: &Words,
    reader: &mut Standing,
    at: usize,
    handler: &mut H,
) -> FrameHead
    requires at { at ≡ byte_place (ring image.now.key) reader.old.unit }
    requires chosen { N.frame ≡ first_of reader.old.seat.me.0.reading.known }
    requires fits { reader.old.seat.table_id ≡ image.now.table.shared.table_id }
    requires ring { (reader.old.units ≡ ring image.now.key) × (reader.old.region ≡
        image.now.table.shared.key.region) }
    requires found { IsFound reader.old.seat.me.0 × (reader.old.seat.me.0.reading.holds ≡ 1) }
    ensures fits { reader.new.seat.table_id ≡ reader.old.seat.table_id }
    ensures same { (reader.new.seat.me.0 ≡ reader.old.seat.me.0) × (reader.new.units ≡
        reader.old.units) × (reader.new.region ≡ reader.old.region) }
    ensures ends { reader.new.read_to ≡ end_of (first_of reader.old.seat.me.0.reading.known) }
    ensures head { result ≡ head_of (32 * reader.old.unit) (frame_said (first_of
        reader.old.seat.me.0.reading.known).bytes) }
    ensures handed { H.takes handler.old result (payload_of (frame_said (first_of
        reader.old.seat.me.0.reading.known).bytes)) handler.new }
{
    let _ = &image.table;
    let words = &image.table.shared;
    let slot = image.slot(reader.unit, reader.number);
    let part = words.exchange(&mut reader.seat, slot, ReadAccess::none());
    let head = shown_head::<N>(image, &part, reader.unit, at);
    let count = match head.kind {
        FrameKind::Data => head.frame_length as usize - 32,
        FrameKind::Pad => 0,
    };
    handler.on_frame(&head, shown_payload::<N>(image, &part, at, count));
    let _none = words.exchange(&mut reader.seat, slot, part);
    reader.read_to = reader.unit + u64::from(align32(head.frame_length)) / 32;
    head
}

/// Hands the frame that was stored where the reader stands to who takes it, its payload where it lies, and the reader stays.
/// There is none only where its held bit, loaded in this call, was zero: a look more is counted then, and nothing is handed
/// over.
pub fn read_with<H: FrameHandler>(
    image: &Image,
    reader: &mut ImageReader,
    handler: &mut H,
) -> Option<FrameHead>
    requires fits { IsReaderOf image.now reader.old }
    ensures fits { IsReaderOf image.now reader.new }
    ensures found { IfSome result (λ head. (payload : List ℕ) × FindsFrame reader.old head payload
        reader.new × H.takes handler.old head payload handler.new) }
    ensures none { IfNone result (FindsNothing reader.old [] reader.new []
        × (handler.new ≡ handler.old)) }
    ensures may { IfSome result (λ _. MayAdvance reader.new) }
{
    let _ = &image.words;
    let at = image.words.byte(reader.standing.unit);
    let word = look_as::<Brand>(&image.words, &mut reader.standing);
    if (word >> (reader.standing.unit % 64)) & 1 == 0 {
        return None;
    }
    Some(read_held::<Brand, H>(&image.words, &mut reader.standing, at, handler))
}

/// Reads the frame that was stored where the reader stands: its payload is copied to the block's front, and the reader stays.
/// There is none only where its held bit, loaded in this call, was zero: a look more is counted then, and the block is as it
/// was.
pub fn read(image: &Image, reader: &mut ImageReader, block: &mut Block) -> Option<FrameHead>
    requires fits { IsReaderOf image.now reader.old }
    requires room { 65472 ≤ length block.old }
    ensures fits { IsReaderOf image.now reader.new }
    ensures found { IfSome result (λ head. FindsHere reader.old block.old head reader.new block.new) }
    ensures none { IfNone result (FindsNothing reader.old block.old reader.new block.new) }
    ensures may { IfSome result (λ _. MayAdvance reader.new) }
    ensures same_length { length block.new ≡ length block.old }
{
    read_with(image, reader, block)
}

/// Moves the reader behind the frame that it has read. The answer is its new position.
pub fn advance(image: &Image, reader: &mut ImageReader) -> u64
    requires fits { IsReaderOf image.now reader.old }
    requires read { MayAdvance reader.old }
    ensures fits { IsReaderOf image.now reader.new }
    ensures passed { PassesOn reader.old reader.new }
    ensures answer { result ≡ position_of reader.new }
    ensures low { result ≤ 2 ^ 61 }
{
    let _ = &image.words;
    let end = reader.standing.read_to;
    move_as::<Brand>(&image.words, &mut reader.standing, end);
    32 * end
}
