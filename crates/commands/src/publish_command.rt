//! The command `publish`.

ghost use Rattle.std.specs.Prelude.{◌≡◌, ◌≢◌, ◌≤◌, ◌<◌, ◌^◌, [], length, map};
ghost use Rattle.clap.specs.Words.{fault_of};
ghost use Rattle.command_line.specs.Lines.{publish_app};
ghost use Rattle.commands.specs.Done.{HasPlanBy, PublishesAlong, PublishesBy, PublishesTo, PublishesTold};
ghost use Rattle.commands.specs.Statuses.{HasPublishPlan, IsStatusOf, NoPublishPlan, NoWays, RefusesPublish, published_status};

use crate::fault::Fault;
use crate::route::{routes_of, tell_each_found};
use crate::status::{failed, failed_by, line_status, unplanned};
use channel::Transport;
use command_line::publish_options;
use options::{Drawn, PublishOptions, PublishPlan, WayFault, draw, publish_plan, ways_of};
use publisher::{Ending, PublishFault, publish};
use std::alloc::Global;
use std::io::{Read, Write};
use std::net::Net;
use std::random::RandomSource;
use std::sync::Wait;
use std::thread::Threads;
use std::time::Clock;

/// Ids that the system's random bytes spell, and whether it gave any; where it gives none they spell 0.
pub(crate) fn drawn_ids<R: RandomSource>(rt: &R) -> (Drawn, bool) {
    let mut bytes = [0; 16];
    let given = rt.fill_bytes(&mut bytes).is_ok();
    (draw(&bytes), given)
}

/// Publishes as planned along these ways, and gives the status; to which addresses names led is told, or that none was found.
fn publish_planned<
    C: Threads + Wait + Clock + Net + Sync + Send + Copy + 'static,
    R: Read + Send + Drop + 'static,
    E: Write,
>(rt: &C, alloc: Global, plan: &PublishPlan, ways: &[Transport], input: R, errors: &mut E) -> u8
    requires some { 0 < length ways.now }
    requires few { length ways.now ≤ 8 }
    ensures most { result ≤ 3 }
    ensures accepted { result ≢ 2 }
    ensures whole { result ≡ 0 → PublishesAlong plan.now ways.now (R.remaining input) }
{
    match routes_of(rt, alloc, ways) {
        Ok(routes) => {
            tell_each_found(errors, ways, &routes);
            let ended = publish(rt, alloc, plan, &routes, input, errors);
            published(&ended, errors)
        }
        Err(fault) => failed(&fault, errors),
    }
}

/// Publishes as planned to the channel's endpoint and these, and gives the status: 2 where there are no ways to them.
fn publish_to<
    C: Threads + Wait + Clock + Net + Sync + Send + Copy + 'static,
    R: Read + Send + Drop + 'static,
    E: Write,
>(rt: &C, alloc: Global, plan: &PublishPlan, to: &[&str], input: R, errors: &mut E) -> u8
    ensures most { result ≤ 3 }
    ensures refused { result ≡ 2 → NoWays plan.now to.now }
    ensures whole { result ≡ 0 → PublishesTo plan.now to.now (R.remaining input) }
{
    match ways_of(alloc, &plan.end.transport, to) {
        Ok(ways) => publish_planned(rt, alloc, plan, &ways, input, errors),
        Err(WayFault::Memory) => failed(&WayFault::Memory, errors),
        Err(fault) => unplanned(&fault, errors),
    }
}

/// Publishes as it is told, and gives the status: 2 where the channel or the rates make no plan, or there is no way to an
/// endpoint.
fn publish_told<
    C: Threads + Wait + Clock + Net + RandomSource + Sync + Send + Copy + 'static,
    R: Read + Send + Drop + 'static,
    E: Write,
>(rt: &C, alloc: Global, options: &PublishOptions<'_>, input: R, errors: &mut E) -> u8
    requires { options.now.end.stream < 2 ^ 31 }
    ensures most { result ≤ 3 }
    ensures refused { result ≡ 2 → NoPublishPlan options.now }
    ensures planned { result ≢ 2 → HasPublishPlan options.now }
    ensures whole { result ≡ 0 → PublishesTold options.now (R.remaining input) }
{
    let (drawn, given) = drawn_ids(rt);
    match publish_plan(options, drawn) {
        Ok(_) if !given => failed(&Fault::Device, errors),
        Ok(plan) => publish_to(rt, alloc, &plan, &options.to, input, errors),
        Err(fault) => unplanned(&fault, errors),
    }
}

/// The status of a publisher that ended; a fault is told.
fn published<E: Write>(ended: &Result<Ending, PublishFault>, errors: &mut E) -> u8
    ensures value { result ≡ published_status ended.now }
    ensures most { result ≤ 3 }
    ensures accepted { result ≢ 2 }
{
    match ended {
        Ok(Ending::Whole) => 0,
        Ok(Ending::Short) => 3,
        Err(fault) => failed_by(fault, fault.number(), errors),
    }
}

/// Carries out a line whose first word is `publish`, and gives the status.
pub(crate) fn publish_command<
    'a,
    C: Threads + Wait + Clock + Net + RandomSource + Sync + Send + Copy + 'static,
    R: Read + Send + Drop + 'static,
    W: Write,
    E: Write,
>(rt: &C, alloc: Global, words: &'a [&'a str], input: R, output: &mut W, errors: &mut E) -> u8
    ensures status { IsStatusOf (fault_of publish_app (map (λ s. s.now) words.entry.now)) result }
    ensures refused { result ≡ 2 → RefusesPublish (map (λ s. s.now) words.entry.now) }
    ensures done { fault_of publish_app (map (λ s. s.now) words.entry.now) ≡ [] → result ≡ 0
        → PublishesBy (map (λ s. s.now) words.entry.now) (R.remaining input) }
    ensures short { result ≡ 3 → HasPlanBy (map (λ s. s.now) words.entry.now) }
{
    match publish_options(alloc, words) {
        Ok(options) => publish_told(rt, alloc, &options, input, errors),
        Err(fault) => line_status(&fault, output, errors),
    }
}
