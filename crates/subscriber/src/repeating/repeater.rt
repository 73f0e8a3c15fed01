//! What repeats a subscriber's last status message while its thread is held up.

ghost use Rattle.std.specs.Prelude.{◌≡◌, length, replicate, IfOk};
ghost use Rattle.subscriber.specs.Repeats.{Repeats, RepeatsTheLast, Steps, StepsAt, given_again, held_by, holding_none};

use crate::images::session_device::{SentStatus, StatusNews};
use peer::StatusSocket;
use std::alloc::{AllocError, Global};
use std::marker::Model;

/// Nanoseconds after which a status message is sent again: one and a half of the intervals in which a subscriber sends one.
const REPEAT_AFTER: u64 = 300_000_000;

/// A status message, and the moment at which it was noted or was repeated last.
#[derive(Clone, Copy)]
struct Held {
    status: SentStatus,
    since: u64,
}

/// What repeats the last status message that was sent. All moments are in nanoseconds from one begin.
#[derive(Drop)]
pub struct Repeater {
    held: Option<Held>,
}

impl Model for Repeater {
    ghost use Rattle.subscriber.specs.Repeats.{Repeating};

    ghost Value = { Repeating };

    ghost view = { λ r. record { held = r.held } };
}

/// What is to be repeated once this is new.
fn held_by(now: u64, news: &StatusNews) -> Option<Held>
    ensures { result ≡ held_by now news.now }
{
    match news {
        StatusNews::Sent(status) => Some(Held {
            status: *status,
            since: now,
        }),
        StatusNews::Cleared => None,
    }
}

impl Repeater {
    /// One that was told of nothing yet.
    pub fn new() -> Repeater
        ensures { result ≡ holding_none }
    {
        Repeater { held: None }
    }

    /// What to send at this moment, where nothing is new.
    fn repeat(&mut self, now: u64) -> Option<SentStatus>
        ensures { Repeats now self.old.held result self.new }
    {
        let held = self.held?;
        if now.saturating_sub(held.since) < REPEAT_AFTER {
            return None;
        }
        let status = held.status;
        self.held = Some(Held { status, since: now });
        Some(status)
    }

    /// What to send again at this moment: where nothing is new the last message, each 300 ms since it was noted.
    pub fn step(&mut self, now: u64, news: Option<StatusNews>) -> Option<SentStatus>
        ensures { Steps now news self.old result self.new }
    {
        let Some(news) = news else {
            return self.repeat(now);
        };
        self.held = held_by(now, &news);
        None
    }
}

/// A repeater for each place, with the socket by which they send. Whoever has it can give them turns, and nothing else goes out.
#[derive(Drop)]
pub struct StatusRepeater {
    repeaters: Vec<Repeater>,
    socket: StatusSocket,
}

impl Model for StatusRepeater {
    ghost use Rattle.subscriber.specs.Repeats.{RepeatingBy};

    ghost Value = { RepeatingBy };

    ghost view = { λ r. record { repeating = r.repeaters.items; socket = r.socket } };
}

impl StatusRepeater {
    /// Of so many places, none of which was told of anything yet, all of which send by this socket.
    pub fn new(
        alloc: Global,
        places: usize,
        socket: StatusSocket,
    ) -> Result<StatusRepeater, AllocError>
        ensures { IfOk result (λ r. r ≡ record { repeating = replicate places holding_none; socket = socket }) }
    {
        let mut repeaters = Vec::new(alloc);
        for _place in 0..places {
            if repeaters.push(Repeater::new()).is_err() {
                return Err(AllocError);
            }
        }
        Ok(StatusRepeater { repeaters, socket })
    }

    /// How many places there are.
    pub(crate) fn places(&self) -> usize
        ensures { result ≡ length self.now.repeating }
    {
        self.repeaters.len()
    }

    /// A step of a place at a moment, whose message goes to its peer. The answer is that message.
    pub fn turn(&mut self, place: usize, now: u64, news: Option<StatusNews>) -> Option<SentStatus>
        ensures step { StepsAt place now news self.old.repeating result self.new.repeating }
        ensures given { self.new.socket ≡ given_again self.old.socket result }
    {
        if place >= self.repeaters.len() {
            return None;
        }
        let sent = self.repeaters[place].step(now, news);
        if let Some(status) = &sent {
            self.socket.send(status.to(), status.bytes());
        }
        sent
    }
}

/// A law: whatever is sent, behind any turns, is the last message that was told, and none is sent once it was cleared.
pub fn repeats_the_last()
    ensures { RepeatsTheLast }
{}
