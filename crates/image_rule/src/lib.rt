//! The rule of an image that one inserter and up to eight readers share without a lock: what holds of its words and its
//! seats between any two word steps, in any schedule, and the kinds of step that keep it (`ImageRuled`).
//!
//! An image's table has a word for each consumer's position, in bytes of the stream, and behind these a ring of three
//! terms, in units of 32 bytes: a held bit and a start bit for each unit. The inserter alone stores all words but the
//! positions, so its seat simply has them (`Held`), beside all frames that were ever stored and the floor, the unit below
//! which nothing is held any more. Frames never overlap; from the floor on the held bit of their first unit is set; a unit
//! whose predecessors were all stored has no held bit unless it was stored; and a consumer stands at the edge of frames,
//! not below the floor, with all units below it stored. A frame counts as stored from the store of its first unit's held
//! bit on, and the floor rises in the very stores that clear held bits.
//!
//! A frame's bytes, as on the wire, lie in plain memory, a region as long as the ring. Each unit has eight slots, one for
//! each consumer: those of a frame's first unit have its parts of the right to read them. A consumer takes its part where it
//! finds the held bit set, and gives it back in the store of its new position. The inserter gives the parts in the store
//! of the held bit, and takes them back from frames that all consumers have left, to write there again.
//!
//! Three laws say this in the words of streams, for any words and seats that an image's table may have: what there is then
//! (`rule_says`); a consumer whose held bit is zero stands at the contiguous end of what was stored, in the state of that look
//! (`ends_without_bit`); and each kind of step is one event of the stream, an insert or a move, or a look (`steps_are_events`).
#![tactic(auto)]

mod law;
mod rule;
mod view;

pub use law::{ends_without_bit, rule_says, steps_are_events};
pub use rule::{
    Attend, Change, Changing, Chosen, Commit, Confirm, Deal, Fetch, Findings, Free, ImageRule,
    Look, Move, News, Picked, Settle, Sweep, Take, Tell,
};
pub use view::{Frame, Held, Key, Reading, Site, View};
