//! A core gives its image's readers away once, and through them is read what it stores.

ghost use Rattle.std.specs.Prelude.{◌≡◌, ◌≤◌, IfSome, length};
ghost use Rattle.std.specs.Arc.{arc_value};
ghost use Rattle.image.specs.Handles.{IsReaderOf};

use block::Block;
use frames::{Frame, Header, Setup, write_frame};
use image::{ImageReader, Insert, advance, read};
use position::UNFRAGMENTED;
use receiver::{Outcome, Readers, ReceiverCore};
use std::alloc::{AllocError, Global};
use std::test::Fail;

/// The SETUP of a stream that joins at 0.
fn setup() -> [u8; 40] {
    let mut bytes = [0; 40];
    let setup = Setup {
        term_offset: 0,
        session: 1,
        stream: 1001,
        initial_term_id: 7,
        active_term_id: 7,
        term_length: 65_536,
        mtu: 1408,
        ttl: 0,
    };
    write_frame(&Frame::Setup(setup), &mut bytes);
    bytes
}

/// A message of 32 bytes at position 0.
fn message() -> [u8; 64] {
    let mut bytes = [0; 64];
    let header = Header {
        term_offset: 0,
        session: 1,
        stream: 1001,
        term_id: 7,
        reserved: 0,
    };
    let data = Frame::Data {
        header,
        flags: UNFRAGMENTED,
        payload: &[0x61; 32],
    };
    write_frame(&data, &mut bytes);
    bytes
}

/// The first reader that nobody took yet.
fn next_reader(taken: &mut Readers) -> Option<ImageReader>
    ensures reader { IfSome result (λ r. IsReaderOf (arc_value taken.new.image) r) }
{
    taken.readers.pop()
}

/// How long a frame is that the next reader reads, and where it stands then.
fn passed(taken: &mut Readers, block: &mut Block) -> Option<(u32, u64)>
    requires { 65472 ≤ length block.old }
    ensures { length block.new ≡ length block.old }
{
    let mut reader = next_reader(taken)?;
    let image = &*taken.image;
    let head = read(image, &mut reader, block)?;
    Some((head.frame_length, advance(image, &mut reader)))
}

/// Hands a datagram in. The one outcome.
fn outcome_of(core: &mut ReceiverCore, datagram: &[u8]) -> Result<Option<Outcome>, AllocError> {
    Ok(core.on_datagram(datagram, 0)?.pop())
}

/// Whether there are no readers before a SETUP, and two once after it, each of which reads a frame that comes later.
fn given_once(alloc: Global) -> Result<bool, AllocError> {
    let mut core = ReceiverCore::new(alloc, 1, 1001, 32_768, 3, 2);
    let none_before = core.take_readers().is_none();
    let opened = outcome_of(&mut core, &setup())?;
    let Some(mut taken) = core.take_readers() else {
        return Ok(false);
    };
    let none_again = core.take_readers().is_none();
    let stored = outcome_of(&mut core, &message())?;
    let mut block = Block::new(alloc, 65_472)?;
    let first = passed(&mut taken, &mut block);
    let second = passed(&mut taken, &mut block);
    let third = passed(&mut taken, &mut block);
    let answers = opened == Some(Outcome::Opened(0))
        && stored == Some(Outcome::Inserted(Insert::Stored));
    let passes = first == Some((64, 64)) && second == first && third.is_none();
    Ok(none_before && none_again && answers && passes)
}

/// A core gives its image's readers away once.
#[test]
fn readers_given_once(rt: HostRuntime) -> Result<(), Fail> {
    assert!(rt; given_once(rt.alloc())?);
    Ok(())
}
