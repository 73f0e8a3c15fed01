/// A word call, and what it answered. A tail is named by its partition, 0 to 2.
#[derive(Clone, Copy)]
pub enum WordStep {
    /// The limit word was loaded.
    Limit(u64),
    /// The active count was loaded.
    Count(u32),
    /// The raw tail of a partition was loaded.
    Tail {
        partition: u32,
        word: u64,
    },
    /// So many bytes were added to the raw tail of a partition; the word before that.
    Addition {
        partition: u32,
        taken: u32,
        word: u64,
    },
    /// The raw tail of the next term's partition was loaded.
    NextTail {
        partition: u32,
        word: u64,
    },
    /// The raw tail of a partition was to be exchanged from one word to another; the word that was there.
    TailExchange {
        partition: u32,
        from: u64,
        to: u64,
        word: u64,
    },
    /// The active count was to be exchanged from this one to the next; the count that was there.
    CountExchange {
        from: u32,
        count: u32,
    },
}
