//! One publisher, step by step; logs that aren't opened.

ghost use Rattle.std.specs.Prelude.{◌≡◌, IfOk};
ghost use Rattle.shared_log.specs.Steps.Handles.{IsOf};
ghost use Rattle.shared_log.specs.Readers.{IsReaderOf};
ghost use Rattle.log_tests.specs.Stays.{Stays};

use crate::opening::open_ready;
use crate::publishing::publish_offer;
use crate::walk::{Terms, shown};
use position::Geometry;
use shared_log::{Log, LogError, LogReader, Publisher};
use std::alloc::{AllocError, Global};
use std::process::Abort;
use std::test::*;

/// A log that begins at a position, offers of so many bytes with the positions or codes that answer them, and what stands
/// in the log then: the end of the stream, the active count and the three raw tails, and bytes from a position on.
struct Row {
    start: u64,
    offers: &'static [(usize, i64)],
    tail: u64,
    words: [u64; 4],
    stream: &'static [(u64, &'static str)],
}

const ROWS: [Row; 7] = [
    // A message of one frame.
    Row {
        start: 0,
        offers: &[(3, 64)],
        tail: 64,
        words: [0, 0x7_0000_0040, 0x5_0000_0000, 0x6_0000_0000],
        stream: &[
            (0, "2300000000c001000000000001000000"),
            (16, "e9030000070000000000000000000000"),
            (32, "61626300000000000000000000000000"),
            (48, "00000000000000000000000000000000"),
        ],
    },
    // No bytes.
    Row {
        start: 0,
        offers: &[(0, 32)],
        tail: 32,
        words: [0, 0x7_0000_0020, 0x5_0000_0000, 0x6_0000_0000],
        stream: &[(0, "2000000000c001000000000001000000")],
    },
    // Three frames.
    Row {
        start: 0,
        offers: &[(3000, 3104)],
        tail: 3104,
        words: [0, 0x7_0000_0c20, 0x5_0000_0000, 0x6_0000_0000],
        stream: &[
            (0, "80050000008001000000000001000000"),
            (1408, "80050000000001008005000001000000"),
            (2816, "1801000000400100000b000001000000"),
        ],
    },
    // The greatest message, which ends with its term, and messages behind it.
    Row {
        start: 57_152,
        offers: &[(8192, 65_536), (3, -3), (3, 65_600)],
        tail: 65_600,
        words: [1, 0x7_0001_0000, 0x8_0000_0040, 0x6_0000_0000],
        stream: &[(57_152, "800500000080010040df000001000000")],
    },
    // The greatest message, which doesn't fit its term.
    Row {
        start: 57_184,
        offers: &[(8192, -3)],
        tail: 65_536,
        words: [1, 0x7_0001_0020, 0x8_0000_0000, 0x6_0000_0000],
        stream: &[
            (57_184, "a020000000c0000060df000001000000"),
            (57_200, "e9030000070000000000000000000000"),
        ],
    },
    // The same, offered again.
    Row {
        start: 57_184,
        offers: &[(8192, -3), (8192, 73_920)],
        tail: 73_920,
        words: [1, 0x7_0001_0020, 0x8_0000_20c0, 0x6_0000_0000],
        stream: &[(65_536, "80050000008001000000000001000000")],
    },
    // The end of the last term.
    Row {
        start: 140_737_488_355_264,
        offers: &[(33, -5), (33, -5), (0, -5)],
        tail: 140_737_488_355_328,
        words: [
            0x7fff_ffff,
            0x8000_0005_0000_0000,
            0x8000_0006_0001_0020,
            0x8000_0004_0000_0000,
        ],
        stream: &[
            (140_737_488_355_264, "4000000000c00000c0ff000001000000"),
            (140_737_488_355_280, "e9030000060000800000000000000000"),
        ],
    },
];

/// A log that begins at a position, the first of its publishers, and its reader.
pub(crate) fn open_at(alloc: Global, start: u64) -> Result<(Log, Publisher, LogReader), Fail>
    ensures { IfOk result (λ r. IsOf r.0 r.1 × IsReaderOf r.0 r.2) }
{
    let geometry = Geometry::new(65_536, 1408, 7)?;
    let (log, publishers, reader) = open_ready(alloc, geometry, start)?;
    let mut publishers = Vec::from_array(alloc, publishers)?;
    let first = publishers.remove(0);
    Ok((log, first, reader))
}

/// Offers a message of so many letters. The answer is a position or a code.
pub(crate) fn offer_letters(log: &Log, publisher: &mut Publisher, size: usize) -> i64
    requires { IsOf log.now publisher.old }
    ensures { Stays log.now publisher.old publisher.new }
{
    let most = log.identity().geometry().max_message() as usize;
    let mut buffer = [0; 8192];
    for (index, byte) in buffer.iter_mut().enumerate() {
        *byte = b'a' + (index % 26) as u8;
    }
    match publish_offer(log, publisher, &buffer[..size.min(most).min(8192)]) {
        Ok(end) => end.cast_signed(),
        Err(refusal) => i64::from(refusal.code()),
    }
}

/// Offers a row's messages, and looks at the answers.
fn offer_row<R: Abort>(rt: &R, log: &Log, publisher: &mut Publisher, row: &Row)
    requires { IsOf log.now publisher.old }
{
    for (size, answer) in row.offers {
        let found = offer_letters(log, publisher, *size);
        assert!(rt; found == *answer);
    }
}

/// The active count, and the raw tails of the three partitions.
pub(crate) fn count_and_tails(log: &mut Log) -> [u64; 4]
    ensures { log.new ≡ log.old }
{
    let control = 3 * (log.identity().geometry().term_length() as usize / 32);
    [
        log.peek(control + 1),
        log.peek(control + 2),
        log.peek(control + 3),
        log.peek(control + 4),
    ]
}

/// Whether these bytes stand in the stream from a position on.
fn stand(alloc: Global, terms: &Terms, position: u64, digits: &str) -> Result<bool, AllocError> {
    let bytes = terms.bytes_from(position).get(..digits.len() / 2);
    Ok(hex::encode(alloc, bytes.unwrap_or(&[]))?.as_str() == digits)
}

/// Plays a row, and looks at what stands in the log then.
fn play<R: Abort>(rt: &R, alloc: Global, row: &Row) -> Result<(), Fail> {
    let (mut log, mut publisher, reader) = open_at(alloc, row.start)?;
    offer_row(rt, &log, &mut publisher, row);
    let (tail, words) = (shown(&mut log), count_and_tails(&mut log));
    assert!(rt; tail == row.tail);
    assert!(rt; words == row.words);
    let terms = Terms::of(alloc, &mut log, reader)?;
    for (position, digits) in row.stream {
        assert!(rt; stand(alloc, &terms, *position, digits)?);
    }
    Ok(())
}

#[test]
fn rows(rt: HostRuntime) -> Result<(), Fail> {
    for row in &ROWS {
        play(&rt, rt.alloc(), row)?;
    }
    Ok(())
}

/// No log has so many consumers.
#[test]
fn refuses_consumers(rt: HostRuntime) -> Result<(), Fail> {
    let geometry = Geometry::new(65_536, 1408, 7)?;
    for consumers in [0, 9] {
        let fault = shared_log::open(rt.alloc(), geometry, 1, 1001, 0, consumers).err();
        assert!(rt; fault == Some(LogError::Consumers));
    }
    Ok(())
}
