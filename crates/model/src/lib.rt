//! The driver as a whole, as a model: one log, its sender and up to eight images, the events that may happen to them,
//! and what holds after every list of events; no code.
//!
//! `every_run` is the headline: for every opened world and every list of events the stream is tiled and the shares
//! add up, rebuilt bytes are the publisher's, consumers stay below the contiguous end, and what was polled is a
//! prefix's messages. Beside it: there is room, nothing readable is cleaned, entries are published ones, and each frame
//! that was sent has a spelling.
//!
//! Each function stands for a law; it does nothing, and its contract is the law. `a_run`: there are such runs.
//! `shares_follow_owners`: shares follow their owners, and a retired number is retired for good. `messages_between`:
//! frames that follow each other are assembled to the messages between their ends, none of which is longer than the
//! greatest. `computes_end_and_gap`: the computed contiguous end and gap are the defined ones, a unit has one content, and
//! the gap that an image tells is its first one. `cycle_sends`: a cycle and a resend send what a sender may send, and a cycle all of it. `steps_keep`: a
//! limit never falls, and no clock does.
//!
//! No contract here says that anything happens, or that a message is what its publisher meant: `offer` and `commit`
//! of `publication` say that.
#![tactic(auto)]

ghost use Rattle.model.specs.CycleLaws.{CycleMaySend, CycleSendsAll, GroupsWell, ResendsFirst, ResendsAsked};
ghost use Rattle.model.specs.ExampleRun.{ItRuns, AlwaysOpens};
ghost use Rattle.model.specs.GapLaws.{ComputesContiguous, ComputesGap, HasOneContent};
ghost use Rattle.model.specs.Headline.{Always, IsTiled, IsRebuiltRight, IsBounded, IsPrefixPolled, IsReadable, ArePublished, AreSpelled, AreGapsTold, HasItsRoom};
ghost use Rattle.model.specs.StepLaws.{AreReached, ClockNeverFalls, FlowLimitNeverFalls, HavePassed, KeepsLimit, KeepsNaks};
ghost use Rattle.model.specs.StreamLaws.{AreShort, GivesMessages, HaveNoShare, RetiresForGood, SharesFollow};

/// Whose the bytes of the stream are: an addition's are its publisher's, a retired publisher's are the other's, for good.
pub fn shares_follow_owners()
    ensures shares { SharesFollow }
    ensures retired { RetiresForGood }
    ensures nothing { Always HaveNoShare }
{}

/// What each step keeps: the limit, a sender's clock and how far it may send, the NAKs that it answered; where consumers stand, and what a sender
/// passed and sent.
pub fn steps_keep()
    ensures limit { KeepsLimit }
    ensures clock { ClockNeverFalls }
    ensures flow { FlowLimitNeverFalls }
    ensures naks { KeepsNaks }
    ensures reached { Always AreReached }
    ensures passed { Always HavePassed }
{}

/// Frames that follow each other are assembled to the messages between their ends; and whatever happened, no assembler
/// has begun or given more than the log's greatest message.
pub fn messages_between()
    ensures given { GivesMessages }
    ensures short { Always AreShort }
{}

/// The contiguous end and the gap that are computed are the ones that are defined; a unit has one content. After every list
/// of events the gap that an image tells is its first one.
pub fn computes_end_and_gap()
    ensures end { ComputesContiguous }
    ensures gap { ComputesGap }
    ensures content { HasOneContent }
    ensures told { Always AreGapsTold }
{}

/// What a cycle sends is what a sender may send, as much as may go, in datagrams of the grammar within the MTU; a resend
/// sends the first of its range, and no others.
pub fn cycle_sends()
    ensures allowed { CycleMaySend }
    ensures all { CycleSendsAll }
    ensures grouped { GroupsWell }
    ensures resent { ResendsFirst }
    ensures asked { ResendsAsked }
{}

/// There is a run with fragments, an abort, a trip of a term's end, a loss, a resend and frames out of order, at whose end
/// two images have polled two messages; and every legal geometry and start opens a world. So what holds of every run
/// speaks of runs that there are.
pub fn a_run()
    ensures runs { ItRuns }
    ensures opens { AlwaysOpens }
{}

/// What holds after every list of events from every opened world.
pub fn every_run()
    // Committed frames, paddings and open claims tile the stream, and the shares add to exactly that.
    ensures tiles { Always IsTiled }
    // Each rebuilt byte is the publisher's at that position.
    ensures rebuilt { Always IsRebuiltRight }
    // No consumer passes the contiguous end, nor that the high-water mark.
    ensures bounds { Always IsBounded }
    // What a subscriber polled is a prefix's messages.
    ensures polled { Always IsPrefixPolled }
    // The tail stays within what is limited and cleaned, whoever is armed.
    ensures room { Always HasItsRoom }
    // What a consumer may still read isn't cleaned.
    ensures readable { Always IsReadable }
    // Each entry is a publisher's, its frames are the first of its cuts, and these are a message's or one padding's.
    ensures entries { Always ArePublished }
    // Each frame that was ever sent has a spelling.
    ensures spelled { Always AreSpelled }
{}
