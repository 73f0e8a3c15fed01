//! The rule of a log's stream: what holds of its words and its passes between any two steps, in any schedule, whoever runs
//! it. The log that threads share is `log_memory`. Its frames lie in plain memory, and the words that are spoken of here
//! stand for them in the proofs alone. Its own rule has this one as a part.
//!
//! Of publishers' claims (`Ruled`): each frame, committed or open, is one of a claim, there and as long as the claim has
//! it; the claims of all publishers tile the stream from the start to the tail, which is the greatest that the three raw
//! tails show; there is room; the words of committed frames stand, the first word of an open one is zero, and so is all
//! from the tail on. Each kind of word step keeps that, is one event of the stream or a look (`steps_are_events`), and
//! tells its pass what `publication` says of it. Who has all parts is sure of the limit, the active count and the three
//! raw tails: each of its steps answers the very word that its earlier ones left.
//!
//! Of the whole log (`LogRuled`), beside that: each of eight numbers is one consumer's at the most, and the keeper alone
//! knows whose is one; a consumer that is there stands in whole units at a frame's edge, with no open claim and nothing
//! uncommitted below it, and the word of a number that nobody has is zero; a frame that a reader knows is committed; the
//! keeper alone moves the limit and cleans, it cleans a word only where every consumer that is there stands a term or
//! more above it, and what may be claimed is clean; a publisher's number is one pass's, which alone claims under it. Each
//! kind of step keeps it, and so do passes that are dealt, told what others committed, gathered, and that meet. It holds
//! of the words of a log that opens.
//!
//! Two laws say this in the words of streams, for any words and passes that a log may have: what there is then
//! (`rule_says`), and that the steps of consumers and of the keeper change nothing of it (`others_are_looks`).
//!
//! Code has little of it. `Key` is what a log is told when it is made, and `packed` is a raw tail. The control words stand
//! at the same places in the table of a log that runs (`place_of`, and the constants). What a call picks for a step is a
//! type of its own (`Chosen` and its like), which has no values that code could see.
#![tactic(auto)]

mod claims;
mod law;
mod picked;
mod rule;

pub use claims::law::steps_are_events;
pub use claims::places::{CONSUMERS, COUNT, DATA, LINE, packed, place_of};
pub use claims::view::{Origin, View};
pub use law::{others_are_looks, rule_says};
pub use picked::{Carried, Chosen, Met, Seated};
pub use rule::Key;
