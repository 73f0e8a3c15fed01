//! A term that is turned by whoever sees its end.

ghost use Rattle.std.specs.Prelude.{◌<◌, OnOk};
ghost use Rattle.shared_log.specs.Steps.Handles.{IsOf};

use crate::rows::{count_and_tails, offer_letters, open_at};
use publication::{Look, Refusal, add_range, look_at, rotate};
use shared_log::{Log, OnLog, Publisher};
use std::test::*;

/// Turns the term that the publisher finds used up, so often.
fn turn(log: &Log, publisher: &mut Publisher, times: u64) -> Result<(), Fail>
    requires { IsOf log.now publisher.old }
    ensures { OnOk result (IsOf log.now publisher.new) }
{
    let mut words = OnLog::new(log);
    let Look::UsedUp(count) = look_at(&mut words, publisher) else {
        return Err("the term has room".into());
    };
    if count >= i32::MAX as u32 {
        return Err("the last term".into());
    }
    for _ in 0..times {
        rotate(&mut words, publisher, count);
    }
    Ok(())
}

/// The publisher adds a message of so many bytes that doesn't fit the term, which is the last but one, and turns once more the
/// term that its addition passed.
fn turn_behind_a_trip(log: &Log, publisher: &mut Publisher, size: u32) -> Result<(), Fail>
    requires { IsOf log.now publisher.old }
    ensures { OnOk result (IsOf log.now publisher.new) }
{
    let geometry = log.identity().geometry();
    if log.start() / u64::from(geometry.term_length()) != 2_147_483_646 {
        return Err("another term".into());
    }
    let mut words = OnLog::new(log);
    let Look::Open(count) = look_at(&mut words, publisher) else {
        return Err("nothing may be added".into());
    };
    let size = size.min(geometry.max_payload());
    match add_range(&mut words, publisher, count, size) {
        Err(Refusal::AdminAction) => {}
        _ => return Err("the message fits".into()),
    }
    rotate(&mut words, publisher, 2_147_483_646);
    Ok(())
}

/// An addition passes the end of its term, and its publisher turns that again.
#[test]
fn turned_behind_a_trip(rt: HostRuntime) -> Result<(), Fail> {
    let (mut log, mut publisher, _) = open_at(rt.alloc(), 140_737_488_289_728)?;
    turn_behind_a_trip(&log, &mut publisher, 33)?;
    let words = count_and_tails(&mut log);
    assert!(rt;
        words
            == [
                0x7fff_ffff,
                0x8000_0005_0001_0020,
                0x8000_0006_0000_0000,
                0x8000_0004_0000_0000
            ]
    );
    Ok(())
}

/// The greatest message ends with its term. Then the next one is turned to, whoever does it and how often.
#[test]
fn turned(rt: HostRuntime) -> Result<(), Fail> {
    for times in 1..4 {
        let (mut log, mut publisher, _) = open_at(rt.alloc(), 57_152)?;
        assert!(rt; offer_letters(&log, &mut publisher, 8192) == 65_536);
        let words = count_and_tails(&mut log);
        assert!(rt; words == [0, 0x7_0001_0000, 0x5_0000_0000, 0x6_0000_0000]);
        turn(&log, &mut publisher, times)?;
        let words = count_and_tails(&mut log);
        assert!(rt; words == [1, 0x7_0001_0000, 0x8_0000_0000, 0x6_0000_0000]);
        assert!(rt; offer_letters(&log, &mut publisher, 3) == 65_600);
    }
    Ok(())
}
