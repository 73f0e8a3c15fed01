//! The rule of a log whose frames lie in plain memory, and the kinds of step that keep it.
//!
//! The words that `log_rule` speaks of, three terms of them, exist in the proofs alone here
//! (`stream`). The table has the control words, and for each unit of 32 bytes one word more: the
//! first of the committed frame that begins there, else zero. All bytes of a frame lie in a region,
//! as on the wire.
//!
//! Each unit has eight slots, which take no memory. While a unit is room, its first slot has the
//! right to write it, and its bytes are zero. An addition to a raw tail takes the slots of exactly
//! the range that it claims, whatever its length, in the same instant (`add_open`). The publisher
//! writes header and payload plainly. The store of the frame's word commits it and gives the slots
//! of its units back; those of its first unit have an eighth of the right to read the frame each,
//! one for every consumer (`commit_open`). A reader that loads a word that isn't zero takes its
//! eighth (`look`, `reread`), reads plainly, and gives it back at its next load (`give_back`). The
//! keeper loads the word of a frame that lies more than a term below all consumers, and has all its
//! slots then (`take_back`); it makes the bytes zero, and the store of zero over the word gives the
//! units back as room (`give_room`).
//!
//! A log opens with its table, its region and the one seat that has all (`open`, `LogMemory`): 208
//! control words and one for each unit, all bytes zero, and all of them room.
//!
//! Each kind of step keeps the rule, whatever stands when it happens (`steps_keep`). One that needs
//! no more than that is made on the table as it is (`See`, `Count`, `Arm`, `ExchangeCount`). The
//! others are calls on the table with a seat, which tell of its pass what `log_rule`'s like tells,
//! and what slots came or went: a publisher's (`load_next`, `exchange_next`), a reader's (`look` to
//! `consume`), the keeper's (`see` to `raise`), and those by which seats are dealt and joined, and
//! told of themselves (`deal_publisher` to `weigh`).
//!
//! A seat carries slots in a row. `gather` makes one run of the memory of the units in it, and
//! `deal_parts` puts the parts of a frame there; `collect_parts` takes them back as one right, and
//! `deal_room` makes units of a run of zeros. None moves a byte. Several claims may be open in one
//! pass: their room stays in the row, in the order of the open frames (`HoldsOpen`), and which of
//! it comes to the front is known to the proof alone (`pass_chosen`).
//!
//! Over these stand the calls that do a thing whole. An addition keeps the room of what it claims
//! (`add_open`). One of the open frames, whichever, is written plainly and committed by one store
//! (`commit_open`). A reader copies what lies behind the header of a frame that it found, and gives
//! its part back (`copy_part`, `give_back`). The keeper makes the memory of all frames below a
//! position zero and room, by two steps a frame (`free_to`).
//!
//! So each byte is written by one seat alone, or read by as many as have a part of it, in any
//! schedule. A commit is many events of the stream at once: a store of each word of the frame, and
//! that of its first. So is the load by which the keeper knows how far all is zero (`clean_to`): a
//! store of zero over each word up to there. Every other kind of step is one event or a look, as it
//! is without memory.
#![tactic(auto)]

mod drafts;
mod frames;
mod keeper;
mod law;
mod memory;
mod open_frames;
mod opening;
mod order;
mod publisher;
mod reader;
mod rights;
mod room_moves;
mod rule;
mod seat_moves;
mod seats;
mod steps;
mod view;

pub use drafts::Draft;
pub use frames::{copy_part, free_frame, free_to, give_back};
pub use keeper::{begin, clean_to, end, give_room, raise, see, take_back};
pub use law::{parts_are_found, seats_keep, steps_keep};
pub use memory::{LogMemory, OwnTable};
pub use open_frames::{Opened, add_open, commit_open};
pub use opening::{open, units_of};
pub use order::pass_chosen;
pub use publisher::{exchange_next, load_next};
pub use reader::{Consumer, consume, look, reread};
pub use rights::{LogSeat, LogTable, Rowed, collect_parts, deal_parts, deal_room, gather};
pub use room_moves::{fetch, park, take_over};
pub use rule::LogMemoryRule;
pub use seat_moves::{
    deal_keeper, deal_knowledge, deal_news, deal_publisher, deal_reader, hand_over, lift, lower,
    meet, part_again, renumber, settle, show, take_consumer, take_seat, tell, weigh,
};
pub use steps::{Arm, Count, ExchangeCount, Picked, See};
pub use view::{LogView, Part, Room, Site};
