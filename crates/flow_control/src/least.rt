ghost use Rattle.std.specs.Prelude.{◌≡◌, ◌≤◌, ◌<◌, ◌^◌, IfSome, max};
ghost use Rattle.flow_control.specs.Group.{after_status, after_tick, allowed, are_heard, at_moment, best_of, inside, least_live, member_at, opened, raised, with_member, with_status};

use crate::flow::FlowControl;
use crate::reach::reach_of;
use std::marker::Model;

/// How many receivers a group has at the most.
const MEMBERS: usize = 8;

/// How many nanoseconds after its last status message a receiver counts.
pub const LIVE: u64 = 5_000_000_000;

/// What a receiver of the group has said.
#[derive(Clone, Copy, Debug)]
pub struct Member {
    /// The greatest sum of position and window.
    best: u64,
    /// The moment of the last status message.
    last: u64,
}

/// The flow control of a group: receivers with the ids from 0 on, all named at the start. Once all were heard, each status
/// message of the group and each tick raises the limit to the least of their best sums of position and window, if that is
/// more than before. A receiver that was silent for more than 5 s doesn't count until it is heard again. Sums are cut at
/// the greatest `i64`; status messages of other ids allow nothing; a moment smaller than one that was seen counts as the
/// one seen.
#[derive(Drop)]
pub struct LeastFlow {
    size: usize,
    limit: u64,
    /// The greatest moment seen, in nanoseconds.
    clock: u64,
    /// By the receivers' ids: what each has said, if it was heard.
    members: [Option<Member>; MEMBERS],
}

impl Model for LeastFlow {
    ghost use Rattle.std.specs.Prelude.{◌≡◌, ◌≤◌, ◌<◌, ◌^◌, length};
    ghost use Rattle.flow_control.specs.Group.{Group, allowed};

    ghost Value = { Group };

    ghost view = { λ f. record { size = f.size; limit = f.limit; clock = f.clock; members = f.members } };

    ghost invariant = { λ f. (f.size ≤ 8) × (length f.members ≡ 8) × (allowed (record { size = f.size; limit = f.limit; clock = f.clock; members = f.members }) < 2 ^ 63) };
}

impl LeastFlow {
    /// A flow control that has heard none of so many receivers, 8 at the most; its limit is the stream's start. That of no
    /// receivers stays there.
    pub fn new(start: u64, group: usize) -> LeastFlow
        requires start { start < 2 ^ 63 }
        requires group { group ≤ 8 }
        ensures { result ≡ opened group start }
    {
        LeastFlow {
            size: group,
            limit: start,
            clock: 0,
            members: [None; MEMBERS],
        }
    }

    /// Sees a moment.
    fn see(&mut self, now: u64)
        ensures { self.new ≡ at_moment self.old now }
    {
        self.clock = self.clock.max(now);
    }

    /// The number of a receiver of the group.
    fn inside(&self, receiver: i64) -> Option<usize>
        ensures number { result ≡ inside self.now.size receiver }
        ensures below { IfSome result (λ number. number < 8) }
    {
        let number = usize::try_from(receiver).ok()?;
        if number < self.size {
            Some(number)
        } else {
            None
        }
    }

    /// What the receiver of this number has said.
    fn member(&self, number: usize) -> Option<Member>
        requires { number < 8 }
        ensures { result ≡ member_at self.now.members number }
    {
        self.members[number]
    }

    /// Notes that this receiver lets a sender go so far.
    fn hear(&mut self, number: usize, reach: u64)
        requires number { number < 8 }
        requires small { reach < 2 ^ 63 }
        ensures { self.new ≡ with_status self.old number reach }
    {
        let best = best_with(self.member(number), reach);
        self.members[number] = Some(Member {
            best,
            last: self.clock,
        });
    }

    /// The least best sum of those that are live.
    fn least_live(&self) -> Option<u64>
        ensures { result ≡ least_live self.now.size self.now.clock self.now.members }
    {
        let mut least = None;
        for number in 0..self.size {
            least = with_member(self.clock, self.member(number), least);
        }
        least
    }

    /// Raises the limit to the least, once all were heard.
    fn raise(&mut self)
        ensures { self.new ≡ raised self.old }
    {
        if !self.heard() {
            return;
        }
        if let Some(least) = self.least_live() {
            self.limit = least.max(self.limit);
        }
    }
}

/// A receiver's best sum with one more.
fn best_with(member: Option<Member>, reach: u64) -> u64
    ensures { result ≡ max reach (best_of member) }
{
    match member {
        None => reach,
        Some(member) => reach.max(member.best),
    }
}

/// The least with one receiver more, if it is live at this moment.
fn with_member(now: u64, member: Option<Member>, least: Option<u64>) -> Option<u64>
    ensures { result ≡ with_member now member least }
{
    let Some(member) = member else {
        return least;
    };
    if now > member.last.saturating_add(LIVE) {
        return least;
    }
    match least {
        None => Some(member.best),
        Some(other) => Some(member.best.min(other)),
    }
}

impl FlowControl for LeastFlow {
    ghost reached = { λ f. f.limit };

    ghost allowed = { λ f. allowed f };

    ghost has_heard = { λ f. are_heard f.size f.members };

    ghost after_status = { λ f position window receiver now. after_status f position window receiver now };

    ghost after_tick = { λ f now. after_tick f now };

    fn on_status(&mut self, position: i64, window: i32, receiver: i64, now: u64) {
        self.see(now);
        let Some(number) = self.inside(receiver) else {
            return;
        };
        self.hear(number, reach_of(position, window));
        self.raise();
    }

    fn limit(&self) -> i64 {
        self.limit as i64
    }

    fn heard(&self) -> bool {
        let mut all = true;
        for number in 0..self.size {
            all = self.member(number).is_some() && all;
        }
        all
    }

    fn tick(&mut self, now: u64) {
        self.see(now);
        self.raise();
    }
}
