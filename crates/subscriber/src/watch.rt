//! The time that a subscriber has seen, whatever its sessions.

ghost use Rattle.std.specs.Prelude.{◌≡◌, ◌≤◌, ◌-◌, ◌↔◌, is_some, IfErr, IfSome, IsSome, IsTrue, OnOk};
ghost use Rattle.endpoint.specs.declared.device_error.DeviceError.TheVariants.{Device};
ghost use Rattle.subscriber.specs.Watches.{GivesNotice, HasWaited, IsBroken, IsDue, IsNoticeDue, awaking, begun, called, later_by, losing, seeing, told_if, with_stranger, with_untaken, working};

use crate::listening::untaken::{Notice, UntakenSetup};
use agents::nanoseconds;
use endpoint::DeviceError;
use options::{SECOND, SubscribePlan};
use std::marker::Model;
use std::time::{Clock, Instant};

/// Nanoseconds after which a socket is given up all of whose calls fail.
const PATIENCE: u64 = 5_000_000_000;

/// When a subscriber began, and what it has seen since, whatever its sessions. All moments are in nanoseconds from the begin.
///
/// What it waits for is, without an image, a datagram that its plan takes.
#[derive(Drop)]
pub struct Watch {
    began: Instant,
    moment: u64,
    heard: u64,
    worked: u64,
    told: u64,
    written: u64,
    strangers: u64,
    calls: u64,
    lost: u64,
    notice: Notice,
}

impl Model for Watch {
    ghost use Rattle.subscriber.specs.Watches.{Timing};

    ghost Value = { Timing };

    ghost view = { λ w. record { moment = w.moment; heard = w.heard; worked = w.worked; told = w.told; written = w.written; strangers = w.strangers; calls = w.calls; lost = w.lost; notice = w.notice } };
}

/// What an earlier moment counts as now, where the clock was looked at last at `moment`: a time of a second or longer in
/// which nobody looked at it is no silence.
pub(crate) fn later_by(moment: u64, now: u64, earlier: u64) -> u64
    ensures { result ≡ later_by moment now earlier }
{
    let unseen = now.saturating_sub(moment);
    if unseen < SECOND {
        return earlier;
    }
    now.min(earlier.saturating_add(unseen))
}

impl Watch {
    pub fn new(began: Instant) -> Watch
        ensures { result ≡ begun }
    {
        Watch {
            began,
            moment: 0,
            heard: 0,
            worked: 0,
            told: 0,
            written: 0,
            strangers: 0,
            calls: 0,
            lost: 0,
            notice: Notice::Nothing,
        }
    }

    /// Notes the moment, which never falls. A clock that can't be read is a device that failed.
    pub fn see<R: Clock>(&mut self, rt: &R) -> Result<(), DeviceError>
        ensures seen { OnOk result (self.new ≡ seeing self.old self.new.moment) }
        ensures later { self.old.moment ≤ self.new.moment }
        ensures failed { IfErr result (λ fault. (fault ≡ Device) × (self.new ≡ self.old)) }
    {
        let Ok(time) = self.began.elapsed(rt) else {
            return Err(DeviceError::Device);
        };
        let now = nanoseconds(time).max(self.moment);
        self.heard = later_by(self.moment, now, self.heard);
        self.worked = later_by(self.moment, now, self.worked);
        self.moment = now;
        Ok(())
    }

    /// The moment that it noted last.
    pub fn moment(&self) -> u64
        ensures { result ≡ self.now.moment }
    {
        self.moment
    }

    /// How many datagrams of strangers there were. At the greatest `u64` it stays.
    pub fn strangers(&self) -> u64
        ensures { result ≡ self.now.strangers }
    {
        self.strangers
    }

    /// How many calls that read the socket failed. At the greatest `u64` it stays.
    pub fn lost(&self) -> u64
        ensures { result ≡ self.now.lost }
    {
        self.lost
    }

    /// What it waits for came at the moment.
    pub fn hear(&mut self)
        ensures { self.new ≡ awaking self.old }
    {
        self.heard = self.moment;
    }

    /// A datagram that came at the moment, before an image, calls for a SETUP.
    pub(crate) fn call(&mut self)
        ensures { self.new ≡ called self.old }
    {
        self.hear();
        self.calls = self.calls.saturating_add(1);
    }

    /// A call of the socket worked at the moment.
    pub fn work(&mut self)
        ensures { self.new ≡ working self.old }
    {
        self.worked = self.moment;
    }

    /// A call that reads the socket failed.
    pub(crate) fn lose(&mut self)
        ensures { self.new ≡ losing self.old }
    {
        self.lost = self.lost.saturating_add(1);
    }

    /// A datagram was a stranger's.
    pub(crate) fn count_stranger(&mut self)
        ensures { self.new ≡ with_stranger self.old }
    {
        self.strangers = self.strangers.saturating_add(1);
    }

    /// A SETUP that the plan doesn't take came at the moment, before an image. It is a stranger's; the first one is noted.
    pub(crate) fn note_untaken(&mut self, untaken: UntakenSetup)
        ensures { self.new ≡ with_untaken untaken self.old }
    {
        self.count_stranger();
        if let Notice::Nothing = self.notice {
            self.notice = Notice::Noted(untaken, self.moment);
        }
    }

    /// Whether a SETUP that the plan doesn't take, which came at this moment, is to be told: a second behind it, or where what it
    /// waits for hasn't come for as long as the plan says.
    fn is_notice_due(&self, plan: &SubscribePlan, since: u64) -> bool
        ensures { IsTrue result ↔ IsNoticeDue plan.now since self.now }
    {
        self.moment.saturating_sub(since) >= SECOND || self.is_quiet(plan)
    }

    /// The first SETUP that the plan doesn't take, where it is to be told and wasn't yet. It counts as told then.
    pub(crate) fn take_untaken(&mut self, plan: &SubscribePlan) -> Option<UntakenSetup>
        ensures { GivesNotice plan.now self.old.notice self.old result self.new }
    {
        let Notice::Noted(untaken, since) = self.notice else {
            return None;
        };
        if !self.is_notice_due(plan, since) {
            return None;
        }
        self.notice = Notice::Told;
        Some(untaken)
    }

    /// Whether what it waits for hasn't come for as long as the plan says.
    pub fn is_quiet(&self, plan: &SubscribePlan) -> bool
        ensures { IsTrue result ↔ HasWaited plan.now self.now }
    {
        self.moment.saturating_sub(self.heard) >= plan.quiet
    }

    /// The fault where every call of the socket has failed for 5 seconds.
    pub fn check_works(&self) -> Result<(), DeviceError>
        ensures works { OnOk result (¬ IsBroken self.now) }
        ensures broken { IfErr result (λ fault. (fault ≡ Device) × IsBroken self.now) }
    {
        if self.moment.saturating_sub(self.worked) >= PATIENCE {
            return Err(DeviceError::Device);
        }
        Ok(())
    }

    /// How many of so many messages came since the counters were told last.
    pub fn since(&self, written: u64) -> u64
        ensures { result ≡ written - self.now.written }
    {
        written.saturating_sub(self.written)
    }

    /// Where the counters are due at the moment, behind so many messages: how many of these came since the last time.
    pub fn tells(&mut self, plan: &SubscribePlan, written: u64) -> Option<u64>
        ensures due { IsSome result ↔ IsDue plan.now self.old }
        ensures since { IfSome result (λ n. n ≡ written - self.old.written) }
        ensures begins { self.new ≡ told_if (is_some result) written self.old }
    {
        if !plan.end.counters || self.moment.saturating_sub(self.told) < SECOND {
            return None;
        }
        let since = self.since(written);
        self.told = self.moment;
        self.written = written;
        Some(since)
    }
}
