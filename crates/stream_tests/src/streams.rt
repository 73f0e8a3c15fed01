//! Publishers, readers and the keeper of one log, each in a thread of its own, over many terms.

ghost use Rattle.std.specs.Prelude.{◌≤◌, length};
ghost use Rattle.theory.specs.Position.{max_message};
ghost use Rattle.shared_log.specs.Steps.Handles.{IsOf};
ghost use Rattle.shared_log.specs.Readers.{IsReaderOf};
ghost use Rattle.stream_tests.specs.Parties.{IsParty};

use crate::opening::open_streams;
use crate::parties::Party;
use log_messages::LogMessages;
use publication::{Refusal, offer};
use shared_log::{Keeper, Log, OnLog, Publisher, clean_and_limit};
use std::process::Abort;
use std::sync::atomic::{AtomicU64, Ordering};
use std::test::*;
use std::thread;
use std::thread::Threads;

/// How many publishers there are, and how many messages each has.
pub(crate) const PUBLISHERS: usize = 4;

const MESSAGES: u32 = 3000;

/// How often a thread tries, at the most.
const TRIES: u32 = 100_000_000;

/// The longest message.
pub(crate) const LONGEST: usize = 900;

/// What a thread saw: how many messages of each publisher, or that something was wrong.
#[derive(Clone, Copy, PartialEq, Eq)]
pub(crate) struct Seen {
    counts: [u32; PUBLISHERS],
    wrong: bool,
}

const NOTHING: Seen = Seen {
    counts: [0; PUBLISHERS],
    wrong: false,
};

/// The length of a message.
pub(crate) fn size_of(number: u32, count: u32) -> usize
    ensures { result ≤ 900 }
{
    8 + (count.wrapping_mul(37).wrapping_add(number.wrapping_mul(11)) % 893) as usize
}

/// The bytes of a message: its publisher's number, its count, and then the same byte over and over.
pub(crate) fn write(message: &mut [u8; LONGEST], number: u32, count: u32) {
    *message = [(number.wrapping_mul(64).wrapping_add(count) % 256) as u8; LONGEST];
    message[..4].copy_from_slice(&number.to_le_bytes());
    message[4..8].copy_from_slice(&count.to_le_bytes());
}

impl Seen {
    /// Takes the next message.
    fn take(&mut self, payload: &[u8]) {
        let mut message = [0; LONGEST];
        for number in 0..PUBLISHERS as u32 {
            let count = self.counts[number as usize];
            write(&mut message, number, count);
            if payload == &message[..size_of(number, count)] {
                self.counts[number as usize] = count.wrapping_add(1);
                return;
            }
        }
        self.wrong = true;
    }

    fn is_over(&self) -> bool {
        self.wrong || self.counts.iter().all(|count| *count >= MESSAGES)
    }
}

/// Offers a message until it is accepted.
fn offer_until(log: &Log, publisher: &mut Publisher, message: &[u8]) -> bool
    requires fits { IsOf log.now publisher.old }
    requires short { length message.now ≤ max_message log.now.identity.geometry }
    ensures { IsOf log.now publisher.new }
{
    for _ in 0..TRIES {
        match offer(&mut OnLog::new(log), publisher, message) {
            Ok(_) => return true,
            Err(Refusal::AdminAction) => {}
            Err(Refusal::BackPressured) => thread::yield_now(),
            Err(_) => return false,
        }
    }
    false
}

/// Publishes all messages of a publisher.
fn publish(log: &Log, publisher: &mut Publisher) -> Seen
    requires { IsOf log.now publisher.old }
{
    let number = (publisher.number() % 8) as u32;
    let most = log.identity().geometry().max_message() as usize;
    let mut message = [0; LONGEST];
    for count in 0..MESSAGES {
        write(&mut message, number, count);
        let size = size_of(number, count).min(most);
        if !offer_until(log, publisher, &message[..size]) {
            return Seen {
                wrong: true,
                ..NOTHING
            };
        }
    }
    NOTHING
}

/// Reads until each message was there.
fn read(log: &Log, messages: &mut LogMessages, over: &AtomicU64) -> Seen
    requires { IsReaderOf log.now messages.old.reader }
{
    let mut seen = NOTHING;
    for _ in 0..TRIES {
        if seen.is_over() {
            break;
        }
        match messages.next(log) {
            Ok(None) => thread::yield_now(),
            Ok(Some(message)) => seen.take(&message.bytes),
            Err(_) => seen.wrong = true,
        }
    }
    over.fetch_add(1, Ordering::SeqCst);
    seen
}

/// Cleans and raises the limit until both readers are through.
fn keep(log: &Log, keeper: &mut Keeper, over: &AtomicU64) -> Seen
    requires { IsOf log.now keeper.old.held }
{
    for _ in 0..TRIES {
        clean_and_limit(log, keeper);
        if over.load(Ordering::SeqCst) >= 2 {
            return NOTHING;
        }
        thread::yield_now();
    }
    NOTHING
}

fn work(log: &Log, party: Party, over: &AtomicU64) -> Seen
    requires { IsParty log.now party }
{
    match party {
        Party::Publishing(mut publisher) => publish(log, &mut publisher),
        Party::Reading(mut messages) => read(log, &mut messages, over),
        Party::Keeping(mut keeper) => keep(log, &mut keeper, over),
    }
}

/// Both readers find each message once, whole, each publisher's in order.
#[test]
fn streams(rt: HostRuntime) -> Result<(), Fail> {
    let (log, parties) = open_streams(rt.alloc())?;
    let over = AtomicU64::new(0);
    let (log, count) = (&log, &over);
    let seen = thread::map_vec(
        &rt,
        parties,
        &|party: Party|
            requires { IsParty log.now party }
        { work(log, party, count) },
    )?;
    let all = Seen {
        counts: [MESSAGES; PUBLISHERS],
        wrong: false,
    };
    let readers = seen.iter().filter(|seen| **seen == all).count();
    assert!(rt; readers == 2);
    assert!(rt; seen.iter().all(|seen| !seen.wrong));
    Ok(())
}
