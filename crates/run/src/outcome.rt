//! What a run leaves.

ghost use Rattle.std.specs.Prelude.{◌≡◌};
ghost use Rattle.run.specs.Outcomes.{all_accepted, all_kept, all_polled, ending_of};

use run_parties::PUBLISHERS;
use shared_log::Book;

/// What a receiver's subscriber polled: how many messages, and whether each publisher's came in its order, each once.
#[derive(Clone, Copy, Debug, PartialEq, Eq)]
pub struct Polled {
    pub polled: u64,
    pub kept: bool,
}

/// What a run leaves: how many publishers took part, and how many messages there were of each; how many of each publisher's
/// were accepted; how many messages there were to poll, and what each receiver's subscriber polled; and the book of the log.
#[derive(Debug, Drop)]
pub struct Outcome {
    pub publishers: usize,
    pub messages: u32,
    /// By the publishers' numbers.
    pub accepted: [u64; PUBLISHERS],
    pub wanted: u64,
    /// By the receivers' numbers.
    pub tallies: Vec<Polled>,
    pub book: Book,
}

/// How a run ended.
#[derive(Clone, Copy, Debug, PartialEq, Eq)]
pub enum Ending {
    /// All messages were accepted, and polled by each subscriber, each publisher's in order.
    Whole,
    /// The turns were used before all messages were accepted and polled.
    Short,
    /// At a subscriber a publisher's messages didn't come in its order, each once.
    Broken,
}

impl Outcome {
    /// Whether of each publisher all messages were accepted.
    fn are_accepted(&self) -> bool
        ensures { result ≡ all_accepted self.now }
    {
        let all = u64::from(self.messages);
        self.accepted
            .iter()
            .take(self.publishers)
            .all(|accepted| *accepted == all)
    }

    /// Whether each subscriber polled all messages.
    fn are_polled(&self) -> bool
        ensures { result ≡ all_polled self.now }
    {
        let wanted = self.wanted;
        self.tallies.iter().all(|tally| wanted <= tally.polled)
    }

    /// Whether at each subscriber the order was kept.
    fn are_kept(&self) -> bool
        ensures { result ≡ all_kept self.now }
    {
        self.tallies.iter().all(|tally| tally.kept)
    }

    /// How the run ended.
    pub fn ending(&self) -> Ending
        ensures { result ≡ ending_of self.now }
    {
        if !self.are_kept() {
            Ending::Broken
        } else if !self.are_polled() || !self.are_accepted() {
            Ending::Short
        } else {
            Ending::Whole
        }
    }
}
