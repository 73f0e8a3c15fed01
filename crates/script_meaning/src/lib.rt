//! What the lines of a script do to a log with its sender and receivers, and what they print: definitions over the
//! contracts of these, and their laws; no code. Each function stands for a law; it does nothing, and its contract is
//! the law.
//!
//! Whatever lines answer a script in this way: after each line, what a receiver's polls printed is what was
//! published, and no message was too long for it, where its image was given no frame but those that had been printed
//! in a packet, and no memory was refused to its assembler; what a reader's lines showed is what was published; with
//! such a receiver's image the log and its sender are a world to which a run of the model leads (`polls_a_prefix`). Where no
//! line hands a receiver bytes of the script's own, and none says that memory was refused, that is so of each receiver
//! (`speaks_without_raw`).
//! Each image, whatever its receiver was handed, keeps its frames apart and its consumer within bounds
//! (`images_stay_in_bounds`). The log's shares are those of all entries, and a book has one text
//! (`shares_are_counted`). What the sender may be asked for again is still in the log, and what it reads again is what
//! it sent (`sends_again_what_it_sent`).
#![tactic(auto)]

ghost use Rattle.script_meaning.specs.Output.{AlwaysCounted, AlwaysInBounds, AlwaysPolled, AlwaysRuns, HasOneBook};
ghost use Rattle.script_meaning.specs.Premises.{HonestWithoutRaw, PolledWithoutRaw, WholeUnrefused};
ghost use Rattle.script_meaning.specs.Standing.{AlwaysAgain, AlwaysThere};

use frames::one_reading;
use model::{every_run, messages_between, steps_keep};
use sender::near_starts_suffice;
use theory::names_place;

/// Whatever is answered, the shares are those of all entries; and a state's book has one text.
pub fn shares_are_counted()
    ensures counted { AlwaysCounted }
    ensures book { HasOneBook }
{}

/// Whatever is answered line by line: what the polls of a receiver printed is what was published between its join and its
/// position, and no message was too long for it, where its image was given no frame but the sender's, and no memory was
/// refused to its assembler; and what an assembler gives of the frames that a reader showed is what was published up to
/// its position. The lines are events of the model's world.
pub fn polls_a_prefix()
    ensures polled { AlwaysPolled }
    ensures runs { AlwaysRuns }
{
    // Laws that the proof cites.
    every_run();
    messages_between();
    steps_keep();
    names_place();
    one_reading();
}

/// Where no line of a script hands a receiver bytes of its own, and none says that memory was refused, what is said of polls is
/// said of each receiver.
pub fn speaks_without_raw()
    ensures honest { HonestWithoutRaw }
    ensures whole { WholeUnrefused }
    ensures polled { PolledWithoutRaw }
{}

/// Whatever is answered, and whatever bytes a receiver was handed: the frames of its image never overlap, and its consumer
/// stays within what stands without a gap, and that within the high-water mark.
pub fn images_stay_in_bounds()
    ensures { AlwaysInBounds }
{}

/// Whatever is answered: what the sender may send again is still in the log, and it is what it sends again.
pub fn sends_again_what_it_sent()
    ensures there { AlwaysThere }
    ensures again { AlwaysAgain }
{
    // Laws that the proof cites.
    every_run();
    messages_between();
    steps_keep();
    names_place();
    one_reading();
    near_starts_suffice();
}
