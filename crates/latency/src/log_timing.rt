//! A log that threads share, timed.

ghost use Rattle.std.specs.Prelude.{◌≡◌, ◌*◌, ◌≤◌, IfOk, OnOk, vec_len};
ghost use Rattle.std.specs.List.{AllByRecursion};
ghost use Rattle.theory.specs.Position.{max_message};
ghost use Rattle.shared_log.specs.Books.{IsDone};
ghost use Rattle.latency.specs.Followers.{IsFollower};

use crate::course::Course;
use crate::fault::LatencyError;
use crate::log_follower::{Follower, follower_of, read_all};
use crate::plan::Plan;
use crate::publisher_threads::{Offers, WhenFull, start_publishers};
use crate::samples::{Samples, Timed, timed_by};
use run_parties::{RunLog, open_run_log};
use shared_log::Publisher;
use std::alloc::Global;
use std::sync::Wait;
use std::thread;
use std::thread::{Scope, Threads};
use std::time::Clock;

/// Begins once all publishers have come, and reads so many messages.
fn read_from_begin<R: Wait + Clock>(
    offers: &Offers<'_, R>,
    wanted: u64,
    follower: &mut Follower,
    samples: &mut Samples,
) -> Result<(), LatencyError>
    requires follower { IsFollower offers.now.log.now follower.old }
    requires none { vec_len samples.old.taken ≡ 0 }
    ensures { OnOk result (vec_len samples.new.taken ≤ wanted) }
{
    offers.course.begin(offers.rt, offers.load.publishers)?;
    read_all(offers, wanted, follower, samples)
}

/// Starts the publishers, reads so many messages, and then lets all end.
fn read_in<'s, S, R: Wait + Clock + Sync>(
    scope: &'s Scope<'s, S>,
    offers: &Offers<'s, R>,
    wanted: u64,
    publishers: Vec<Publisher>,
    mut follower: Follower,
    mut samples: Samples,
) -> Result<Samples, LatencyError>
    requires done { AllByRecursion (IsDone offers.now.log.now) publishers.items }
    requires short { offers.now.load.length ≤ max_message offers.now.log.now.identity.geometry }
    requires follower { IsFollower offers.now.log.now follower }
    requires none { vec_len samples.taken ≡ 0 }
    ensures { IfOk result (λ s. vec_len s.taken ≤ wanted) }
{
    start_publishers(scope, offers, publishers);
    let read = read_from_begin(offers, wanted, &mut follower, &mut samples);
    offers.course.stop();
    match read {
        Ok(()) => Ok(samples),
        Err(fault) => Err(fault),
    }
}

/// The same, in a scope of its own. It is left once all threads have ended. What the scope's closure ensures is known where it
/// holds plain references, and not where it holds a struct of them.
fn read_offers<R: Threads + Wait + Clock + Sync>(
    offers: &Offers<'_, R>,
    wanted: u64,
    publishers: Vec<Publisher>,
    follower: Follower,
    samples: Samples,
) -> Result<Samples, LatencyError>
    requires done { AllByRecursion (IsDone offers.now.log.now) publishers.items }
    requires short { offers.now.load.length ≤ max_message offers.now.log.now.identity.geometry }
    requires follower { IsFollower offers.now.log.now follower }
    requires none { vec_len samples.taken ≡ 0 }
    ensures { IfOk result (λ s. vec_len s.taken ≤ wanted) }
{
    let &Offers {
        rt,
        alloc,
        log,
        course,
        load,
        when_full,
    } = offers;
    thread::scope(
        thread::scope_env(),
        rt,
        move |scope| -> Result<Samples, LatencyError>
            requires { AllByRecursion (IsDone log.now) publishers.items × (load.length ≤ max_message log.now.identity.geometry) × IsFollower log.now follower × (vec_len samples.taken ≡ 0) }
            ensures { IfOk result (λ s. vec_len s.taken ≤ wanted) }
        {
            let offers = Offers {
                rt,
                alloc,
                log,
                course,
                load,
                when_full,
            };
            read_in(scope, &offers, wanted, publishers, follower, samples)
        },
    )
}

/// Times a fresh log: publishers offer messages, each in a thread of its own, and this thread reads them all and keeps the
/// log. A message is timed from its stamp to the moment at which its last frame was read; at full load the stamp is the
/// moment before its first offer, and else the moment at which it is due.
///
/// It fails where memory is refused, a thread can't be started, the clock can't be read, the log is used up, or no message
/// was read.
pub fn time_log<R: Threads + Wait + Clock + Sync>(
    rt: &R,
    alloc: Global,
    plan: &Plan,
) -> Result<Timed, LatencyError>
    ensures { IfOk result (λ t. t.messages ≤ plan.now.load.publishers * plan.now.load.messages) }
{
    let load = plan.load;
    let wanted = load.wanted();
    let samples = Samples::new(alloc, wanted)?;
    let RunLog {
        log,
        publishers,
        others: _,
        reader,
        keeper,
    } = open_run_log(alloc, plan.geometry, load.publishers as usize)?;
    let follower = follower_of(alloc, &log, reader, keeper)?;
    let course = Course::new(rt)?;
    let offers = Offers {
        rt,
        alloc,
        log: &log,
        course: &course,
        load,
        when_full: WhenFull::Yield,
    };
    let samples = read_offers(&offers, wanted, publishers, follower, samples)?;
    course.outcome()?;
    timed_by(samples)
}
