//! One inserter and two readers of one image, each in a thread of its own, over many laps of its ring.

ghost use Rattle.std.specs.Prelude.{◌≡◌, ◌+◌, ◌%◌, ◌^◌, ◌≤◌, length, IfOk};
ghost use Rattle.std.specs.List.{AllByRecursion};
ghost use Rattle.image.specs.Handles.{IsReaderOf};
ghost use Rattle.image.specs.Rebuilding.{IsInserterOf};
ghost use Rattle.image_tests.specs.Parties.{IsParty};

use crate::parties::Party;
use crate::stream_frames::{LONGEST, frame_at, frame_of};
use block::Block;
use image::{Image, ImageReader, Insert, Inserter, advance, deal, insert, open, read};
use position::{FrameHead, FrameKind, Geometry, Identity, UNFRAGMENTED, align32};
use std::alloc::{AllocError, Global};
use std::test::*;
use std::thread;
use std::thread::Threads;

/// Where the stream ends: some sixty laps.
const END: u64 = 12_000_000;

const TERM: u32 = 65_536;

const WINDOW: u32 = 32_768;

/// How often a thread tries, at the most.
const TRIES: u32 = 100_000_000;

/// The position behind a frame.
fn end_of(head: &FrameHead) -> u64
    requires short { head.now.frame_length ≤ 1408 }
    requires low { head.now.start ≤ 2 ^ 41 }
    ensures low { result ≤ head.now.start + 1440 }
    ensures unit { head.now.start % 32 ≡ 0 → result % 32 ≡ 0 }
    ensures further { head.now.start ≤ result }
{
    head.start + u64::from(align32(head.frame_length))
}

/// Offers the frame at a position until it is judged by what is held. The answer is that, and where the frame ends.
fn offer_until(image: &Image, inserter: &mut Inserter, start: u64) -> (Insert, u64)
    requires fits { IsInserterOf image.now inserter.old }
    requires unit { start % 32 ≡ 0 }
    requires low { start ≤ 2 ^ 40 }
    ensures fits { IsInserterOf image.now inserter.new }
    ensures unit { result.1 % 32 ≡ 0 }
    ensures low { result.1 ≤ start + 1440 }
    ensures further { start ≤ result.1 }
{
    let mut payload = [0; LONGEST];
    let (head, size) = frame_at(start, &mut payload);
    let end = end_of(&head);
    let frame = frame_of(&head, &payload[..size]);
    for _ in 0..TRIES {
        let answer = insert(image, inserter, start as i64, &frame);
        if answer != Insert::OverWindow {
            return (answer, end);
        }
        thread::yield_now();
    }
    (Insert::OverWindow, end)
}

/// What becomes of a frame of one unit at a position, which nobody sent.
fn of_one_unit(image: &Image, inserter: &mut Inserter, start: u64) -> Insert
    requires fits { IsInserterOf image.now inserter.old }
    requires unit { start % 32 ≡ 0 }
    requires low { start ≤ 2 ^ 40 }
    ensures { IsInserterOf image.now inserter.new }
{
    let head = FrameHead {
        start,
        kind: FrameKind::Data,
        flags: UNFRAGMENTED,
        frame_length: 32,
    };
    insert(image, inserter, start as i64, &frame_of(&head, &[]))
}

/// Whether a frame met one that was stored, or one that all consumers have passed.
fn is_there(answer: Insert) -> bool {
    matches!(answer, Insert::Duplicate | Insert::Overlap | Insert::Below)
}

/// Inserts the frame at a position and the one behind it, in turned order, the first one again, and others that nobody sent:
/// within the first frame, above the window, and far below. Whether each was judged rightly, and where both end.
fn insert_two(image: &Image, inserter: &mut Inserter, start: u64) -> (bool, u64)
    requires fits { IsInserterOf image.now inserter.old }
    requires unit { start % 32 ≡ 0 }
    requires low { start ≤ 2 ^ 39 }
    ensures fits { IsInserterOf image.now inserter.new }
    ensures unit { result.1 % 32 ≡ 0 }
    ensures low { result.1 ≤ start + 2880 }
{
    let mut payload = [0; LONGEST];
    let (head, _) = frame_at(start, &mut payload);
    let next = end_of(&head);
    let (turned, end) = offer_until(image, inserter, next);
    let (first, _) = offer_until(image, inserter, start);
    let (again, _) = offer_until(image, inserter, start);
    let within = of_one_unit(image, inserter, start);
    let above = of_one_unit(image, inserter, start + 327_680);
    let stored = turned == Insert::Stored && first == Insert::Stored;
    let refused = is_there(again) && is_there(within) && above == Insert::OverWindow;
    let below = start < 102_400 || of_one_unit(image, inserter, start - 102_400) == Insert::Below;
    (stored && refused && below, end)
}

/// Inserts all frames.
fn insert_all(image: &Image, inserter: &mut Inserter) -> bool
    requires { IsInserterOf image.now inserter.old }
{
    let mut start = 0;
    for _ in 0..TRIES {
        if start >= END {
            return true;
        }
        let (right, end) = insert_two(image, inserter, start);
        if !right {
            return false;
        }
        start = end;
    }
    false
}

/// Reads the frame at a position, which is the next one. Whether it is the very frame, or none yet.
fn read_next(image: &Image, reader: &mut ImageReader, block: &mut Block, at: &mut u64) -> bool
    requires fits { IsReaderOf image.now reader.old }
    requires room { 65472 ≤ length block.old }
    requires unit { at.old % 32 ≡ 0 }
    requires low { at.old ≤ 2 ^ 40 }
    ensures fits { IsReaderOf image.now reader.new }
    ensures room { 65472 ≤ length block.new }
    ensures unit { at.new % 32 ≡ 0 }
{
    let Some(found) = read(image, reader, block) else {
        thread::yield_now();
        return true;
    };
    let mut payload = [0; LONGEST];
    let (head, size) = frame_at(*at, &mut payload);
    let whole = found == head && block.bytes()[..size] == payload[..size];
    let end = end_of(&head);
    *at = advance(image, reader);
    whole && *at == end
}

/// Reads all frames.
fn read_all(image: &Image, reader: &mut ImageReader, block: &mut Block) -> bool
    requires fits { IsReaderOf image.now reader.old }
    requires room { 65472 ≤ length block.old }
{
    let mut at = 0;
    for _ in 0..TRIES {
        if at >= END {
            return true;
        }
        if !read_next(image, reader, block, &mut at) {
            return false;
        }
    }
    false
}

fn work(image: &Image, party: Party) -> bool
    requires { IsParty image.now party }
{
    match party {
        Party::Inserting(mut inserter) => insert_all(image, &mut inserter),
        Party::Reading {
            mut reader,
            mut block,
        } => read_all(image, &mut reader, &mut block),
    }
}

/// What a thread has that reads.
fn reading(alloc: Global, image: &Image, reader: ImageReader) -> Result<Party, AllocError>
    requires { IsReaderOf image.now reader }
    ensures { IfOk result (λ party. IsParty image.now party) }
{
    let _ = image.consumers();
    let block = Block::new(alloc, 65_472)?;
    Ok(Party::Reading { reader, block })
}

/// What the three threads have.
fn parties_of(
    alloc: Global,
    image: &Image,
    inserter: Inserter,
    one: ImageReader,
    other: ImageReader,
) -> Result<Vec<Party>, AllocError>
    requires inserter { IsInserterOf image.now inserter }
    requires readers { IsReaderOf image.now one × IsReaderOf image.now other }
    ensures { IfOk result (λ parties. AllByRecursion (IsParty image.now) parties.items) }
{
    let one = reading(alloc, image, one)?;
    let other = reading(alloc, image, other)?;
    Ok(Vec::from_array(alloc, [Party::Inserting(inserter), one, other])?)
}

/// Both readers find each frame once, in order and whole; and whatever comes beside the frames is refused.
#[test]
fn streams(rt: HostRuntime) -> Result<(), Fail> {
    let geometry = Geometry::new(TERM, 1_408, 7)?;
    let identity = Identity::new(geometry, 1, 1001);
    let (image, mut inserter) = open(rt.alloc(), identity, 0, WINDOW, 2)?;
    let one = deal(&image, &mut inserter, 1);
    let zero = deal(&image, &mut inserter, 0);
    let parties = parties_of(rt.alloc(), &image, inserter, one, zero)?;
    let shared = &image;
    let right = thread::map_vec(
        &rt,
        parties,
        &|party: Party|
            requires { IsParty shared.now party }
        { work(shared, party) },
    )?;
    assert!(rt; right.len() == 3);
    assert!(rt; right.iter().all(|right| *right));
    Ok(())
}
