//! SETUPs that a plan doesn't take, and why.

ghost use Rattle.std.specs.Prelude.{◌≡◌, ◌≢◌, ◌↔◌, IfNone, IfSome, IsTrue, Some};
ghost use Rattle.frames.specs.Frames.{setup_of};
ghost use Rattle.subscriber.specs.Meetings.{TakesSession};
ghost use Rattle.subscriber.specs.Texts.{untaken_text, unwanted_text};
ghost use Rattle.subscriber.specs.Untaken.{IsUntaken, IsUnwanted, OpensSome};

use crate::listening::setup_offer::{bytes_of, is_ongoing, window_in};
use frames::Setup;
use options::SubscribePlan;
use receiver::judge;
use std::fmt;
use std::net::SocketAddr;

/// Why a plan doesn't take a SETUP.
#[derive(Clone, Copy, Debug, PartialEq, Eq)]
pub enum Unwanted {
    /// It is of another stream than this one.
    Stream(i32),
    /// It is of another session than this one.
    Session(i32),
    /// Its terms have so many bytes, more than this.
    Terms(u32, u32),
}

impl fmt::Display for Unwanted {
    ghost output = { λ why. Some (unwanted_text why) };

    fn fmt<W: fmt::Write>(&self, f: &mut fmt::Formatter<W>) -> fmt::Result {
        match *self {
            Unwanted::Stream(wanted) => write!(f, "stream {wanted} is wanted"),
            Unwanted::Session(wanted) => write!(f, "session {wanted} is wanted"),
            Unwanted::Terms(length, greatest) => {
                write!(f, "its terms of {length} bytes are longer than {greatest}")
            }
        }
    }
}

/// A SETUP that a plan doesn't take, who sent it, and why it isn't taken.
#[derive(Clone, Copy, Debug, PartialEq, Eq)]
pub struct UntakenSetup {
    pub session: i32,
    pub stream: i32,
    pub from: SocketAddr,
    pub why: Unwanted,
}

impl fmt::Display for UntakenSetup {
    ghost output = { λ untaken. Some (untaken_text untaken) };

    fn fmt<W: fmt::Write>(&self, f: &mut fmt::Formatter<W>) -> fmt::Result {
        let UntakenSetup {
            session,
            stream,
            from,
            why,
        } = *self;
        write!(f, "session {session} of stream {stream} at {from}: {why}")
    }
}

/// What was noted of SETUPs that a plan doesn't take.
#[derive(Clone, Copy, Debug, PartialEq, Eq)]
pub enum Notice {
    Nothing,
    /// The first one, and the moment at which it came, in nanoseconds from the subscriber's begin.
    Noted(UntakenSetup, u64),
    /// The first one was told.
    Told,
}

/// Whether a SETUP would open an image for a plan that takes it: its stream goes on, and has a shape.
fn opens_some(setup: &Setup) -> bool
    ensures { IsTrue result ↔ OpensSome (setup_of setup.now) }
{
    match judge(setup, window_in(1, setup)) {
        Ok(_) => is_ongoing(setup),
        Err(_) => false,
    }
}

/// The session that the plan wants, where that is another one.
fn wanted_session(plan: &SubscribePlan, session: i32) -> Option<i32>
    ensures other { IfSome result (λ wanted. (plan.now.session ≡ Some wanted) × (session ≢ wanted)) }
    ensures taken { IfNone result (TakesSession plan.now.session session) }
{
    match plan.session {
        Some(wanted) if session != wanted => Some(wanted),
        _ => None,
    }
}

/// Why the plan doesn't take a SETUP: the first of its stream, its session and the length of its terms that is another. There is
/// no such reason where the plan takes it, nor where it would open no image for any plan.
pub fn why_unwanted(plan: &SubscribePlan, setup: &Setup) -> Option<Unwanted>
    ensures { IsUnwanted plan.now (setup_of setup.now) result }
{
    if !opens_some(setup) {
        return None;
    }
    if setup.stream != plan.end.stream {
        return Some(Unwanted::Stream(plan.end.stream));
    }
    if let Some(wanted) = wanted_session(plan, setup.session) {
        return Some(Unwanted::Session(wanted));
    }
    let length = bytes_of(setup.term_length);
    if length > plan.greatest_term {
        return Some(Unwanted::Terms(length, plan.greatest_term));
    }
    None
}

/// A SETUP that this one sent, where the plan doesn't take it.
pub fn untaken_of(plan: &SubscribePlan, from: SocketAddr, setup: &Setup) -> Option<UntakenSetup>
    ensures untaken { IfSome result (IsUntaken plan.now from (setup_of setup.now)) }
    ensures none { IfNone result (IsUnwanted plan.now (setup_of setup.now) None) }
{
    let why = why_unwanted(plan, setup)?;
    Some(UntakenSetup {
        session: setup.session,
        stream: setup.stream,
        from,
        why,
    })
}
