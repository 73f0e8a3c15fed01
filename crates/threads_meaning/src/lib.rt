//! What a log and an image in threads mean: between any two steps on their words, in any schedule, they are a log and an image
//! of the model, and each step is one event of that, or none; no code. So the headline holds of them.
//!
//! An image: `IsImageOf` says when the words and the seats of its table are an image of the model. A frame that is stored is one
//! that was inserted, a position that is stored moves a consumer past a frame, all other steps are looks
//! (`image_steps_are_events`); and where it stores frames that the sender sent it is an image of a run (`images_are_in_runs`).
//!
//! `IsModelOf` says when the words and the passes of a log that obeys its rule (`LogRuled`) are a log of the model: entries,
//! committed frames, tail, limit, flags, who may add, and readers. Three laws follow: a log that opens is an opened one
//! (`opens_as_model`), each step leads to such a log by one event (`each_step_is_an_event`), and any list of steps is a run, so
//! that the headline holds of the log that it leads to (`steps_are_a_run`). There are such steps (`there_are_steps`).
//!
//! Which step is which event stands in `StepOf`. Of the words only the control words are spoken of: the limit, the active
//! count, the raw tails and the consumers' positions. What stands behind them is what the rule says. So a log that keeps
//! its frames elsewhere has these steps too. An event asks for what `publication` and `log_rule` say of its step, and in four places for more:
//!
//! - A frame that is committed is the next of its claim (`IsNextFrame`). The rule keeps any order; `publication` alone commits,
//!   and what its contracts say of offers and claims gives this (`commits_are_in_order`).
//! - The limit is raised as the keeper does it, after it has cleaned, and no store opens a closed log again.
//! - A consumer joins at the least position that was seen, which no other consumer is below.
//! - A number that was handed over isn't used again: the model retires a number for good, and a pass that has all parts may act
//!   for any.
//!
//! A log that runs keeps its frames in plain memory, under the rule of `log_memory`. `IsRunning` says of its own words and
//! seats when it is a log of the model: that is so where its stream is one, whose other words are there in proofs alone. Each
//! kind of step of `steps_keep` may be made wherever the rule holds, and wherever it was made, it is the events that are said
//! (`running_log_is_a_model`): the table leads to one that is again a log of the model, by those, and the headline holds of it
//! from a log that opens. Its premises are those of `steps_keep`, and those above. Where memory goes to and fro, and where
//! its word for a unit is loaded or made zero, that is a look; where the keeper knows how far all is zero, so many words are
//! cleaned, one event each. Seats are dealt and joined as those of its stream (`running_seats_are_events`). Payloads are bytes
//! in memory, which only one seat may write, and no step.
//!
//! The model's consumers may pass a frame that their assembler refused (`Pass`): no step on words is that, since an assembler
//! is no part of the log; here each reader's assembler hears each frame. A load is a `Look`, a word of an open frame is a
//! `Store`, and a turn of the term is a `Rotate`: the model's log stays. All consumers are the log's readers, the sender too, so
//! events are those of a log with no other consumers.
#![tactic(auto)]

mod images;
mod law;
mod running_log;

pub use images::{image_steps_are_events, images_are_in_runs};
pub use law::{
    commits_are_in_order, each_step_is_an_event, opens_as_model, shares_are_claimed,
    steps_are_a_run, there_are_steps,
};
pub use running_log::{running_log_is_a_model, running_seats_are_events};
