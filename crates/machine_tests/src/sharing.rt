ghost use Rattle.std.specs.Prelude.{◌≡◌, ◌*◌, ◌≤◌};
ghost use Rattle.counters.specs.Order.{zeros};

use counters::{CounterReader, CounterWriter, Counters, Readings};
use std::sync::Wait;
use std::test::*;
use std::thread;
use std::thread::Threads;

/// How many times the writer publishes.
const TIMES: u64 = 10_000;

/// Readings of which each position tells the two others.
fn marks(step: u64) -> Readings
    requires { step ≤ 10000 }
    ensures { result ≡ record { least = step; rebuilt = 2 * step; high_water = 3 * step } }
{
    Readings {
        least: step,
        rebuilt: 2 * step,
        high_water: 3 * step,
    }
}

/// Publishes the marks of all steps in turn.
fn publish_all<R: Wait>(rt: &R, counters: &Counters, writer: &mut CounterWriter)
    requires { (writer.old.counters ≡ counters.now) × (writer.old.last ≡ zeros) }
    ensures { (writer.new.counters ≡ writer.old.counters) × (writer.new.last ≡ record { least = 10000; rebuilt = 20000; high_water = 30000 }) }
{
    for step in 0..TIMES {
        counters.publish(rt, writer, marks(step + 1));
    }
}

/// Reads until the last marks are there, and answers whether each reading was whole and none went back.
fn read_all<R: Wait>(rt: &R, counters: &Counters, reader: &mut CounterReader) -> bool
    requires { reader.old.counters ≡ counters.now }
    ensures { reader.new.counters ≡ reader.old.counters }
{
    let mut step = 0;
    for _ in rt.forever() {
        if step >= TIMES {
            break;
        }
        let seen = counters.read(rt, reader);
        if seen.least < step || seen.least > TIMES || seen != marks(seen.least) {
            return false;
        }
        step = seen.least;
    }
    true
}

#[test]
fn on_one_thread(rt: HostRuntime) -> Result<(), Fail> {
    let (counters, mut writer) = Counters::new(rt.alloc())?;
    let mut reader = counters.reader(&mut writer);
    let before = counters.read(&rt, &mut reader);
    counters.publish(&rt, &mut writer, marks(1));
    let first = counters.read_with(&rt, &mut reader, &mut writer);
    counters.publish(&rt, &mut writer, marks(7));
    let second = counters.read(&rt, &mut reader);
    let again = counters.read(&rt, &mut reader);
    assert!(rt; [before, first, second, again] == [marks(0), marks(1), marks(7), marks(7)]);
    Ok(())
}

#[test]
fn on_two_threads(rt: HostRuntime) -> Result<(), Fail> {
    let (counters, mut writer) = Counters::new(rt.alloc())?;
    let mut reader = counters.reader(&mut writer);
    let mut fine = false;
    thread::join_mut(
        &rt,
        &mut || fine = read_all(&rt, &counters, &mut reader),
        &mut || publish_all(&rt, &counters, &mut writer),
    );
    assert!(rt; fine);
    assert!(rt; counters.read_with(&rt, &mut reader, &mut writer) == marks(TIMES));
    Ok(())
}
