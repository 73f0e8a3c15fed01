//! What a sender sends again: which NAKs are taken, and which range is due. It knows where the frames start that can
//! still be asked for, finds one by halving, and keeps at most sixteen actions; all memory is taken by `new`.
//!
//! Call by call it is said which NAK is taken, and which of the other four answers comes first
//! (`Retransmit::on_nak`); what is kept, lingers and is forgotten (`note`); which range is due, from the first frame
//! start that is asked for, and that there is none only where no such start is (`due`). The laws `range_begins_first`
//! and `near_starts_suffice`: by the starts that it keeps it answers what all frames that were sent would make it
//! answer.

ghost use Rattle.sender.specs.Resending.Laws.{NearAreEnough, NearGiveRange, NearStayNear, RangeBeginsFirst};

pub(crate) mod action;
pub(crate) mod actions;
pub(crate) mod answer;
pub(crate) mod handler;
pub(crate) mod starts;

/// The starts that a handler keeps are enough: by them it answers what all frames that were sent would make it answer.
pub fn near_starts_suffice()
    ensures answers { NearAreEnough }
    ensures later { NearStayNear }
    ensures range { NearGiveRange }
{}

/// A range that is due begins at the first frame start that was asked for and can be sent, and has all that was asked
/// for from there on. There is none only where no such frame starts.
pub fn range_begins_first()
    ensures { RangeBeginsFirst }
{}
