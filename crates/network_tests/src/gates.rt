//! Each party goes on while another is held.

use endpoint::DeviceError;
use options::{Plan, RunOptions, defaults, plan};
use run::{Ending, Gate, Outcome, Polled, Role, run};
use std::alloc::Global;
use std::net::Net;
use std::sync::Wait;
use std::sync::atomic::{AtomicU64, Ordering};
use std::test::*;
use std::thread;
use std::thread::Threads;
use std::time::Clock;

/// How often the one who is held looks whether it may go on.
const PATIENCE: u32 = 20_000_000;

/// The parties that have cycles.
const ROLES: [Role; 6] = [
    Role::Sender,
    Role::Receiver(0),
    Role::Receiver(1),
    Role::Conductor,
    Role::Publisher(0),
    Role::Publisher(1),
];

/// Holds one party in its first cycle until another has ended its second one.
#[derive(Drop)]
struct Hold {
    held: Role,
    awaited: Role,
    /// How many cycles the awaited one has ended.
    ended: AtomicU64,
    /// Whether the one who was held could go on.
    went_on: AtomicU64,
}

impl Gate for Hold {
    fn enter(&self, role: Role, cycle: u32) {
        if role != self.held || cycle > 0 {
            return;
        }
        for _ in 0..PATIENCE {
            if self.ended.load(Ordering::SeqCst) >= 2 {
                self.went_on.store(1, Ordering::SeqCst);
                return;
            }
            thread::yield_now();
        }
    }

    fn leave(&self, role: Role, _cycle: u32) {
        if role == self.awaited {
            self.ended.fetch_add(1, Ordering::SeqCst);
        }
    }
}

/// Two publishers of ten messages, and two receivers.
fn small() -> RunOptions {
    let mut options = defaults();
    options.publishers = 2;
    options.receivers = 2;
    options.messages = 10;
    options.turns = 1_000_000_000;
    options
}

/// What a run leaves in which one party is held until another has ended two cycles, if the held one could go on.
fn run_held<R: Threads + Wait + Clock + Net + Sync>(
    rt: &R,
    alloc: Global,
    plan: &Plan,
    held: Role,
    awaited: Role,
) -> Result<Option<Outcome>, DeviceError> {
    let gate = Hold {
        held,
        awaited,
        ended: AtomicU64::new(0),
        went_on: AtomicU64::new(0),
    };
    let mut errors = Vec::new(alloc);
    let outcome = run(rt, alloc, plan, &gate, &mut errors)?;
    if gate.went_on.load(Ordering::SeqCst) == 0 || !errors.is_empty() {
        return Ok(None);
    }
    Ok(Some(outcome))
}

/// What a subscriber has polled in the end.
const ALL: Polled = Polled {
    polled: 20,
    kept: true,
};

/// Whether such a run polled all, in order.
fn is_whole<R: Threads + Wait + Clock + Net + Sync>(
    rt: &R,
    alloc: Global,
    plan: &Plan,
    held: Role,
    awaited: Role,
) -> bool {
    match run_held(rt, alloc, plan, held, awaited) {
        Ok(Some(outcome)) => {
            outcome.ending() == Ending::Whole
                && outcome.tallies.as_slice() == [ALL, ALL].as_slice()
                && outcome.accepted == [10, 10, 0, 0, 0, 0, 0, 0]
                && outcome.book.tail == 5120
                && outcome.book.shares == [2560, 2560, 0, 0, 0, 0, 0, 0]
        }
        _ => false,
    }
}

/// Whatever party is held in its first cycle, each other one goes on to its second.
#[test]
fn each_goes_on(rt: HostRuntime) -> Result<(), Fail> {
    let plan = plan(&small())?;
    for pair in 0..36usize {
        let (held, awaited) = (ROLES[pair / 6], ROLES[pair % 6]);
        if held != awaited {
            assert!(rt;
                is_whole(&rt, rt.alloc(), &plan, held, awaited),
                "{held:?} {awaited:?}"
            );
        }
    }
    Ok(())
}
