use assembler::{Assembler, AssemblyError};
use linked_list_allocator::LocalHeap;
use std::alloc::{Allocator, Global};
use std::test::*;

/// The message that a frame completes, none, or why it is refused.
type Answer = Result<Option<&'static [u8]>, AssemblyError>;

/// The flags and the payload of each frame in order, and what answers it.
const FRAMES: [(u8, &[u8], Answer); 9] = [
    (0x40, b"x", Ok(None)),
    (0x80, b"ab", Ok(None)),
    (0xc0, b"c", Ok(Some(b"c"))),
    (0x80, b"ab", Ok(None)),
    (0, b"c", Ok(None)),
    (0x40, b"d", Ok(Some(b"abcd"))),
    (0x80, b"abc", Ok(None)),
    (0, b"de", Err(AssemblyError::TooLong)),
    (0x40, b"", Ok(None)),
];

/// Whether a frame is answered so.
fn answers<A: Allocator + Copy>(
    assembler: &mut Assembler<A>,
    flags: u8,
    payload: &[u8],
    answer: Answer,
) -> bool {
    match assembler.on_frame(flags, payload) {
        Ok(None) => answer == Ok(None),
        Ok(Some(message)) => answer.ok().flatten() == Some(message.bytes.as_slice()),
        Err(fault) => answer.err() == Some(fault),
    }
}

#[test]
fn joins(rt: HostRuntime) {
    let mut assembler = Assembler::new(rt.alloc(), 4);
    for (flags, payload, answer) in FRAMES {
        assert!(rt; answers(&mut assembler, flags, payload, answer));
    }
}

/// A message in three pieces.
const PIECES: [(u8, [u8; 40]); 3] = [(0x80, [1; 40]), (0, [2; 40]), (0x40, [3; 40])];

/// How many pieces an assembler takes before one is refused, behind which nothing is begun. After the last the message is
/// whole.
fn taken_by<A: Allocator + Copy>(assembler: &mut Assembler<A>) -> Option<usize> {
    for (place, (flags, payload)) in PIECES.iter().enumerate() {
        match assembler.on_frame(*flags, payload) {
            Ok(None) => {}
            Ok(Some(message)) => return (message.bytes.len() == 120).then_some(3),
            Err(_) => return answers(assembler, 0x40, b"", Ok(None)).then_some(place),
        }
    }
    None
}

/// How many pieces an assembler takes over a heap of this size.
fn taken_within(alloc: Global, size: usize) -> Result<Option<usize>, Fail> {
    let heap = LocalHeap::new(alloc, size)?;
    Ok(taken_by(&mut Assembler::new(&heap, 1000)))
}

/// Each growth refused in turn, by heaps of growing size: nothing is begun then, and the message comes once all fit.
#[test]
fn memory_refused(rt: HostRuntime) -> Result<(), Fail> {
    let mut seen = [false; 4];
    for size in 0..64 {
        let taken = taken_within(rt.alloc(), 16 * size)?;
        seen[taken.ok_or("neither whole nor refused")?.min(3)] = true;
    }
    assert!(rt; seen == [true; 4]);
    Ok(())
}
