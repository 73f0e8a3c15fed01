//! A publisher that draws what it publishes.

ghost use Rattle.std.specs.Prelude.{◌≤◌, ◌<◌, length};
ghost use Rattle.theory.specs.Position.{max_message, max_payload};
ghost use Rattle.shared_log.specs.Steps.Handles.{IsOf};
ghost use Rattle.log_tests.specs.Stays.{Stays};

use crate::claimed::{Claimed, LONGEST, fill};
use position::Geometry;
use publication::{Refusal, abort, commit, offer, try_claim};
use rand_core::utils::NextWord;
use rand_pcg::Pcg32;
use shared_log::{Log, OnLog, Publisher};
use std::alloc::Global;
use std::process::Abort;
use std::thread;

/// How often a publisher tries, at the most.
const TRIES: usize = 10_000;

/// A number below a bound.
pub(crate) fn below(draws: &mut Pcg32, bound: u32) -> u32
    requires { 0 < bound }
    ensures { result < bound }
{
    draws.next_word() % bound
}

/// A length, from 0 to several frames. Most are short, and some fill their frames.
fn draw_size(draws: &mut Pcg32, geometry: &Geometry) -> usize
    ensures short { result ≤ 5504 }
    ensures fits { result ≤ max_message geometry.now }
{
    let most = geometry.max_payload();
    let size = match below(draws, 16) {
        0 => below(draws, 5) * most,
        1 => below(draws, 4 * most + 1),
        2..=4 => below(draws, most + 1),
        _ => below(draws, 128),
    };
    LONGEST.min(size.min(geometry.max_message()) as usize)
}

/// Claims a range for a message, and fills or aborts it.
fn publish_claim(
    log: &Log,
    publisher: &mut Publisher,
    message: &[u8],
    aborts: bool,
) -> Result<u64, Refusal>
    requires fits { IsOf log.now publisher.old }
    requires short { length message.now ≤ max_payload log.now.identity.geometry }
    ensures { IsOf log.now publisher.new }
{
    let most = log.identity().geometry().max_payload() as usize;
    prove!(message.len() <= most);
    let size = message.len() as u32;
    let mut words = OnLog::new(log);
    let start = try_claim(&mut words, publisher, size)?;
    if aborts {
        return Ok(abort(&mut words, publisher, start, size));
    }
    Ok(commit(&mut words, publisher, start, message))
}

/// Offers a message.
pub(crate) fn publish_offer(
    log: &Log,
    publisher: &mut Publisher,
    message: &[u8],
) -> Result<u64, Refusal>
    requires fits { IsOf log.now publisher.old }
    requires short { length message.now ≤ max_message log.now.identity.geometry }
    ensures { Stays log.now publisher.old publisher.new }
{
    offer(&mut OnLog::new(log), publisher, message)
}

/// Draws a message and publishes it, by an offer or by a claim.
fn publish_next(log: &Log, publisher: &mut Publisher, draws: &mut Pcg32) -> Result<Claimed, Refusal>
    requires { IsOf log.now publisher.old }
    ensures { IsOf log.now publisher.new }
{
    let geometry = log.identity().geometry();
    let size = draw_size(draws, &geometry);
    let covered = u64::from(geometry.framed_length(size as u32));
    let key = draws.next_word();
    let way = below(draws, 6);
    let claims = way < 2 && size <= geometry.max_payload() as usize;
    let aborted = claims && way == 0;
    let mut buffer = [0; LONGEST];
    let message = &mut buffer[..size];
    fill(message, key);
    let end = if claims {
        publish_claim(log, publisher, message, aborted)?
    } else {
        publish_offer(log, publisher, message)?
    };
    Ok(Claimed {
        start: end.wrapping_sub(covered),
        end,
        size,
        key,
        aborted,
    })
}

/// Publishes until the log refuses for good, as far as its tries go.
pub(crate) fn publish_all<R: Abort>(
    rt: &R,
    alloc: Global,
    log: &Log,
    mut publisher: Publisher,
    seed: u64,
) -> Vec<Claimed>
    requires { IsOf log.now publisher }
{
    let mut draws = Pcg32::new(seed, publisher.number());
    let mut claims = Vec::new(alloc);
    for _ in 0..TRIES {
        match publish_next(log, &mut publisher, &mut draws) {
            Ok(claimed) => claims.push(claimed).expect(rt, "memory"),
            Err(Refusal::AdminAction) => {}
            Err(Refusal::BackPressured | Refusal::MaxPositionExceeded) => break,
            Err(refusal) => panic!(rt; "refused with {refusal}"),
        }
        if below(&mut draws, 4) == 0 {
            thread::yield_now();
        }
    }
    claims
}
