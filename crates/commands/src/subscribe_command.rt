//! The command `subscribe`.

ghost use Rattle.std.specs.Prelude.{◌≡◌, ◌≢◌, ◌⊎◌, ◌≤◌, ◌<◌, ◌^◌, [], map, IsTrue};
ghost use Rattle.clap.specs.Words.{fault_of};
ghost use Rattle.command_line.specs.Lines.{subscribe_app};
ghost use Rattle.subscriber.specs.declared.ending.Ending.{Ending as EndedAs};
ghost use Rattle.subscriber.specs.declared.ending.Ending.TheVariants.{Lost, Whole};
ghost use Rattle.commands.specs.Done.{IsSubscribed, IsSubscribedTold, SubscribesBy, SubscribesShortBy};
ghost use Rattle.commands.specs.Statuses.{HasSubscribePlan, IsStatusOf, NoSubscribePlan, RefusesSubscribe, subscribed_as, subscribed_status};

use crate::fault::Fault;
use crate::publish_command::drawn_ids;
use crate::route::{binding_of, peer_of, tell_found};
use crate::status::{failed, failed_by, line_status, unplanned};
use command_line::subscribe_options;
use options::{SubscribeOptions, SubscribePlan, subscribe_plan};
use std::alloc::Global;
use std::io::Write;
use std::net::Net;
use std::random::RandomSource;
use std::sync::Wait;
use std::thread::Threads;
use std::time::Clock;
use subscriber::{Ending, SubscribeFault, Subscribed, subscribe};

/// Subscribes as planned, and gives the status; to which address a name led is told, or that none was found. Only one that was to
/// end with the stream, or of which a stream was cut off, ends with 3.
fn subscribe_planned<C: Threads + Wait + Clock + Net + Copy + Send + 'static, W: Write, E: Write>(
    rt: &C,
    alloc: Global,
    plan: &SubscribePlan,
    output: &mut W,
    errors: &mut E,
) -> u8
    ensures most { result ≤ 3 }
    ensures accepted { result ≢ 2 }
    ensures short { result ≡ 3 → IsTrue plan.now.once ⊎ IsSubscribed plan.now (W.contents output.old) (W.contents output.new) Lost }
    ensures ended { result ≢ 1 → (e : EndedAs) × (result ≡ subscribed_as e) × IsSubscribed plan.now (W.contents output.old) (W.contents output.new) e }
{
    let transport = &plan.end.transport;
    match peer_of(rt, transport) {
        Ok(endpoint) => {
            let _ = tell_found(errors, &transport.endpoint.host, endpoint);
            let binding = binding_of(transport, endpoint);
            let ended = subscribe(rt, alloc, plan, &binding, output, errors);
            subscribed(&ended, errors)
        }
        Err(unknown) => failed(&unknown, errors),
    }
}

/// Subscribes as it is told, and gives the status: 2 where the channel or the rates make no plan.
fn subscribe_told<
    C: Threads + Wait + Clock + Net + RandomSource + Copy + Send + 'static,
    W: Write,
    E: Write,
>(rt: &C, alloc: Global, options: &SubscribeOptions<'_>, output: &mut W, errors: &mut E) -> u8
    requires { options.now.end.stream < 2 ^ 31 }
    ensures most { result ≤ 3 }
    ensures refused { result ≡ 2 → NoSubscribePlan options.now }
    ensures planned { result ≢ 2 → HasSubscribePlan options.now }
    ensures told { result ≡ 3 → IsTrue options.now.once ⊎ IsSubscribedTold options.now (W.contents output.old) (W.contents output.new) Lost }
    ensures ended { result ≢ 1 → result ≢ 2 → (e : EndedAs) × (result ≡ subscribed_as e) × IsSubscribedTold options.now (W.contents output.old) (W.contents output.new) e }
{
    let (drawn, given) = drawn_ids(rt);
    match subscribe_plan(options, drawn) {
        Ok(_) if !given => failed(&Fault::Device, errors),
        Ok(plan) => subscribe_planned(rt, alloc, &plan, output, errors),
        Err(fault) => unplanned(&fault, errors),
    }
}

/// The status of a subscriber that ended; a fault is told.
fn subscribed<E: Write>(ended: &Result<Subscribed, SubscribeFault>, errors: &mut E) -> u8
    ensures value { result ≡ subscribed_status ended.now }
    ensures most { result ≤ 3 }
    ensures accepted { result ≢ 2 }
{
    match ended {
        Ok(done) => match done.ending {
            Ending::Whole => 0,
            Ending::Short | Ending::Lost => 3,
        },
        Err(fault) => failed_by(fault, fault.number(), errors),
    }
}

/// Carries out a line whose first word is `subscribe`, and gives the status.
pub(crate) fn subscribe_command<
    'a,
    C: Threads + Wait + Clock + Net + RandomSource + Copy + Send + 'static,
    W: Write,
    E: Write,
>(rt: &C, alloc: Global, words: &'a [&'a str], output: &mut W, errors: &mut E) -> u8
    ensures status { IsStatusOf (fault_of subscribe_app (map (λ s. s.now) words.entry.now)) result }
    ensures refused { result ≡ 2 → RefusesSubscribe (map (λ s. s.now) words.entry.now) }
    ensures done { fault_of subscribe_app (map (λ s. s.now) words.entry.now) ≡ [] → result ≡ 0
        → SubscribesBy (map (λ s. s.now) words.entry.now) (W.contents output.old) (W.contents output.new) Whole }
    ensures short { result ≡ 3 → SubscribesShortBy (map (λ s. s.now) words.entry.now) (W.contents output.old) (W.contents output.new) }
{
    match subscribe_options(alloc, words) {
        Ok(options) => subscribe_told(rt, alloc, &options, output, errors),
        Err(fault) => line_status(&fault, output, errors),
    }
}
