ghost use Rattle.std.specs.Prelude.{◌≡◌, ℕ, ◌<◌, ◌++◌, ◌∷◌, [], Ok, Err, IfOk, MatchResult, MatchOption, All};
ghost use Rattle.conductor.specs.Rule.{AreThere};
ghost use Rattle.conductor.specs.Parties.{AreFirst, AreFresh, AreLeft, WasFull, fresh_client};

use crate::command::{Command, Submitted};
use crate::hand::{Ends, Hears, Opens, QueuePass, RuledQueue, Submits, Takes, Tells, Totals};
use crate::parties::{Client, Taker};
use std::alloc::{AllocError, Global};
use std::marker::Model;
use std::sync::Wait;

/// How many clients a queue has.
pub const CLIENTS: usize = 8;

/// How many commands a queue holds at the most.
pub const CAPACITY: usize = 64;

/// The queue, which clients and the taker share by reference.
#[derive(Drop)]
pub struct Conductor {
    line: RuledQueue,
}

impl Model for Conductor {
    ghost use Rattle.std.specs.Prelude.{◌≡◌};
    ghost use Rattle.atomic_table.specs.Seated.{TableId, table_id_coded};
    ghost use Rattle.crossbeam_queue.specs.Passes.{ruled_capacity};

    ghost Value = { TableId };

    ghost coded = { table_id_coded };

    ghost view = { λ c. c.line.table.shared.table_id };

    ghost invariant = { λ c. ruled_capacity c.line ≡ 64 };
}

impl Conductor {
    /// An empty queue with its eight clients, in the order of their numbers, and its taker. The error comes only where
    /// memory was refused.
    pub fn new(alloc: Global) -> Result<(Conductor, Vec<Client>, Taker), AllocError>
        ensures clients { IfOk result (λ r. AreFirst r.0 8 r.1.items × AreFresh r.1.items) }
        ensures taker { IfOk result (λ r. r.2 ≡ record { queue = r.0; taken = []; heard = [] }) }
    {
        let (line, mut seat) = RuledQueue::ruled(alloc, CAPACITY)?;
        let mut clients = Vec::with_capacity(alloc, CLIENTS)?;
        for number in 0..CLIENTS {
            let client = Client {
                number,
                seat: line.another::<Opens>(&mut seat),
            };
            clients.push(client).unwrap();
        }
        Ok((Conductor { line }, clients, Taker { seat }))
    }

    /// An empty queue with the first of its clients, and its taker; the other clients are let go. The error comes only where
    /// memory was refused.
    #[tactic(auto, using(crate::proofs::Firsts::client_is))]
    pub fn with_client(alloc: Global) -> Result<(Conductor, Client, Taker), AllocError>
        ensures client { IfOk result (λ r. r.1 ≡ fresh_client r.0 0) }
        ensures taker { IfOk result (λ r. r.2 ≡ record { queue = r.0; taken = []; heard = [] }) }
    {
        let (conductor, mut clients, taker) = Conductor::new(alloc)?;
        Ok((conductor, clients.remove(0), taker))
    }

    /// The same with the first two of its clients.
    #[tactic(auto, using(crate::proofs::Firsts::client_is, crate::proofs::Firsts::front_is))]
    pub fn with_two_clients(alloc: Global) -> Result<(Conductor, Client, Client, Taker), AllocError>
        ensures first { IfOk result (λ r. r.1 ≡ fresh_client r.0 0) }
        ensures second { IfOk result (λ r. r.2 ≡ fresh_client r.0 1) }
        ensures taker { IfOk result (λ r. r.3 ≡ record { queue = r.0; taken = []; heard = [] }) }
    {
        let (conductor, mut clients, taker) = Conductor::new(alloc)?;
        let second = clients.remove(1);
        let first = clients.remove(0);
        Ok((conductor, first, second, taker))
    }

    /// Hands a command to the queue. It is given back where the queue was full at one moment of the call, which this
    /// client alone can't refute.
    pub fn submit<R: Wait>(
        &self,
        rt: &R,
        client: &mut Client,
        command: Command,
    ) -> Result<(), Command>
        requires { client.old.queue ≡ self.now }
        ensures answer { MatchResult result (λ _. client.new ≡ record client.old { accepted = client.old.accepted ++ command ∷ [] }) (λ back. (back ≡ command) × (client.new ≡ client.old) × WasFull client.old) }
        ensures same_client { (client.new.queue ≡ client.old.queue) × (client.new.number ≡ client.old.number) }
    {
        let submitted = Submitted {
            client: client.number,
            command,
        };
        match self
            .line
            .push_as::<Submits, R>(rt, &mut client.seat, submitted)
        {
            Ok(()) => Ok(()),
            Err(back) => Err(back.command),
        }
    }

    /// Takes a command: of a client's the first that wasn't taken yet, as `finish` shows. There is none only where the queue
    /// was empty at one moment of the call: all commands that the taker was told of are taken then.
    pub fn take<R: Wait>(&self, rt: &R, taker: &mut Taker) -> Option<Submitted>
        requires { taker.old.queue ≡ self.now }
        ensures { MatchOption result
            ((taker.new ≡ taker.old) × AreThere taker.old.heard taker.old.taken)
            (λ m. taker.new ≡ record taker.old { taken = taker.old.taken ++ m ∷ [] }) }
    {
        self.line.pop_as::<Takes, R>(rt, &mut taker.seat)
    }

    /// Tells the taker of all that a client has submitted so far.
    pub fn learn(&self, taker: &mut Taker, client: &mut Client)
        requires taker { taker.old.queue ≡ self.now }
        requires client { client.old.queue ≡ self.now }
        ensures client { client.new ≡ client.old }
        ensures taker { taker.new ≡ record taker.old { heard = record { client = client.old.number; commands = client.old.accepted } ∷ taker.old.heard } }
    {
        let report = self.line.another::<Tells>(&mut client.seat);
        self.line.absorb::<Hears>(&mut taker.seat, report);
    }
}

/// Ends a queue, once all its clients and its taker are handed in, and answers how many commands were left in it.
pub fn finish<R: Wait>(
    rt: &R,
    conductor: Conductor,
    mut clients: Vec<Client>,
    taker: Taker,
) -> usize
    requires clients { AreFirst conductor 8 clients.items }
    requires taker { taker.queue ≡ conductor }
    ensures { AreLeft clients.items taker.taken result }
{
    let Taker { mut seat } = taker;
    while let Some(client) = clients.pop() {
        let Client {
            number: _,
            seat: theirs,
        } = client;
        conductor.line.absorb::<Ends>(&mut seat, theirs);
    }
    clients.destroy_empty();
    conductor.line.len_as::<Totals, R>(rt, &mut seat)
}
