ghost use Rattle.std.specs.Prelude.{◌≡◌};
ghost use Rattle.conductor.specs.Parties.{AreFirst};

use conductor::{CLIENTS, Client, Command, Conductor, Submitted, Taker, finish};
use std::sync::Wait;
use std::test::*;
use std::thread;
use std::thread::Threads;

const COMMANDS: [Command; 3] = [Command::Connect, Command::Disconnect, Command::Close];

/// How many commands each client submits.
const EACH: usize = 100;

/// Submits seventy commands, and counts those that are given back.
fn fill<R: Wait>(rt: &R, conductor: &Conductor, client: &mut Client) -> usize
    requires { client.old.queue ≡ conductor.now }
    ensures queue { client.new.queue ≡ client.old.queue }
    ensures number { client.new.number ≡ client.old.number }
{
    let mut refused = 0_usize;
    for _turn in 0..70_usize {
        if conductor.submit(rt, client, Command::Disconnect).is_err() {
            refused += 1;
        }
    }
    refused
}

/// The first client's command.
const FIRST: Submitted = Submitted {
    client: 0,
    command: Command::Connect,
};

#[test]
fn in_order(rt: HostRuntime) -> Result<(), Fail> {
    let (conductor, mut clients, mut taker) = Conductor::new(rt.alloc())?;
    assert!(rt; conductor.take(&rt, &mut taker).is_none());
    assert!(rt;
        conductor
            .submit(&rt, &mut clients[0], Command::Connect)
            .is_ok()
    );
    assert!(rt;
        conductor
            .submit(&rt, &mut clients[7], Command::Close)
            .is_ok()
    );
    conductor.learn(&mut taker, &mut clients[0]);
    assert!(rt; conductor.take(&rt, &mut taker) == Some(FIRST));
    assert!(rt; fill(&rt, &conductor, &mut clients[3]) == 7);
    assert!(rt; finish(&rt, conductor, clients, taker) == 64);
    Ok(())
}

/// Submits so many commands, in turn, again where the queue is full.
fn submit_all<R: Wait>(rt: &R, conductor: &Conductor, client: &mut Client)
    requires { client.old.queue ≡ conductor.now }
    ensures { (client.new.queue ≡ client.old.queue) × (client.new.number ≡ client.old.number) }
{
    let mut next = 0;
    for _ in rt.forever() {
        if next >= EACH {
            break;
        }
        match conductor.submit(rt, client, COMMANDS[next % 3]) {
            Ok(()) => next += 1,
            Err(_) => thread::yield_now(),
        }
    }
}

/// Takes the commands of all clients, and answers whether each client's came in its order.
fn take_all<R: Wait>(rt: &R, conductor: &Conductor, taker: &mut Taker) -> bool
    requires { taker.old.queue ≡ conductor.now }
    ensures { taker.new.queue ≡ taker.old.queue }
{
    let mut counts = [0; CLIENTS];
    let mut in_order = true;
    for _ in rt.forever() {
        if counts.iter().all(|count| *count == EACH) {
            break;
        }
        match conductor.take(rt, taker) {
            Some(taken) if taken.client < CLIENTS && counts[taken.client] < EACH => {
                in_order &= taken.command == COMMANDS[counts[taken.client] % 3];
                counts[taken.client] += 1;
            }
            Some(_) => in_order = false,
            None => thread::yield_now(),
        }
    }
    in_order
}

/// Each client submits all its commands in a thread of its own.
fn submit_each<R: Threads + Wait + Sync>(rt: &R, conductor: &Conductor, clients: &mut [Client])
    requires { AreFirst conductor.now 8 clients.old }
    ensures { AreFirst conductor.now 8 clients.new }
{
    thread::for_each_mut(
        rt,
        clients,
        CLIENTS,
        &|_, client|
            requires { client.old.queue ≡ conductor.now }
        { submit_all(rt, conductor, client) },
    );
}

#[test]
fn eight_threads(rt: HostRuntime) -> Result<(), Fail> {
    let (conductor, mut clients, mut taker) = Conductor::new(rt.alloc())?;
    let mut in_order = false;
    thread::join_mut(
        &rt,
        &mut || in_order = take_all(&rt, &conductor, &mut taker),
        &mut ||
            requires { AreFirst conductor 8 clients.items }
        { submit_each(&rt, &conductor, clients.as_mut_slice()) },
    );
    assert!(rt; in_order);
    assert!(rt; finish(&rt, conductor, clients, taker) == 0);
    Ok(())
}
