//! What the lines that speak of the log alone do to it, and what they print.

ghost use Rattle.std.specs.Prelude.{◌≡◌, ◌≤◌, ◌<◌, length, IfOk, OnErr, replicate};
ghost use Rattle.theory.specs.Position.{max_message, max_payload};
ghost use Rattle.position.specs.Heads.{frame_in};
ghost use Rattle.one_hand.specs.HandReads.{MovesReader};
ghost use Rattle.one_hand.specs.Stream.{HasConsumer};
ghost use Rattle.script.specs.Meaning as commands;
ghost use Rattle.script_meaning.specs.Answers.{Answers};
ghost use Rattle.simulation.specs.Lines.{line_content};
ghost use Rattle.simulation.specs.Reading.{JoinsLine, LeadsTo, LeavesLine, ReadsLine, StandsStill, shown_frame};
ghost use Rattle.simulation.specs.Reading.{MayBeOffered};

use crate::line::Line;
use block::Block;
use one_hand::{Claims, LogHand};
use position::{FrameHead, FrameKind};
use script::PartyNumber;
use std::alloc::{AllocError, Global};

/// So many bytes 61. The error comes only where memory was refused.
pub fn letters(alloc: Global, size: usize) -> Result<Vec<u8>, AllocError>
    ensures { IfOk result (λ letters. letters.items ≡ replicate size 97) }
{
    vec![in alloc; b'a'; size]
}

/// Offers a message that the log can hold, unless the publisher has a claim open.
pub fn offer_line(log: &mut LogHand, publisher: PartyNumber, message: &[u8]) -> Line
    requires { length message.now ≤ max_message log.old.identity.geometry }
    ensures leads { LeadsTo (λ s lines t. MayBeOffered s publisher.number message.now lines t) log.old (line_content result) log.new }
    ensures still { StandsStill log.old log.new }
{
    // What always holds of it, for the proof.
    log.is_whole();
    if log.claimed(publisher.number).is_some() {
        return Line::Bad;
    }
    match log.offer(publisher.number, message) {
        Ok(position) => Line::Position(position),
        Err(refusal) => Line::Refused(refusal),
    }
}

/// Claims a range for a message that a frame can hold, unless the publisher has a claim open.
pub fn claim_line(log: &mut LogHand, publisher: PartyNumber, size: u32) -> Line
    requires { size ≤ max_payload log.old.identity.geometry }
    ensures leads { LeadsTo (λ s lines t. Answers s (commands.Claim publisher.number size) lines t) log.old (line_content result) log.new }
    ensures still { StandsStill log.old log.new }
{
    // What always holds of it, for the proof.
    log.is_whole();
    if log.claimed(publisher.number).is_some() {
        return Line::Bad;
    }
    match log.claim(publisher.number, size) {
        Ok((start, end)) => Line::Claimed { start, end },
        Err(refusal) => Line::Refused(refusal),
    }
}

/// Fills the publisher's open claim with bytes 61, and commits it. At an error memory was refused, and the log is as it was.
pub fn commit_line(
    alloc: Global,
    log: &mut LogHand,
    publisher: PartyNumber,
) -> Result<Line, AllocError>
    ensures leads { IfOk result (λ line. LeadsTo (λ s lines t. Answers s (commands.Commit publisher.number) lines t) log.old (line_content line) log.new) }
    ensures still { StandsStill log.old log.new }
{
    // What always holds of it, for the proof.
    log.is_whole();
    let Some(size) = log.claimed(publisher.number) else {
        return Ok(Line::Bad);
    };
    let payload = letters(alloc, size as usize)?;
    let end = log.commit(publisher.number, &payload);
    Ok(Line::Position(end))
}

/// Makes the publisher's open claim a padding.
pub fn abort_line(log: &mut LogHand, publisher: PartyNumber) -> Line
    ensures leads { LeadsTo (λ s lines t. Answers s (commands.Abort publisher.number) lines t) log.old (line_content result) log.new }
    ensures still { StandsStill log.old log.new }
{
    // What always holds of it, for the proof.
    log.is_whole();
    if log.claimed(publisher.number).is_none() {
        return Line::Bad;
    }
    Line::Position(log.abort(publisher.number))
}

/// A committed frame, a message's payload in the block's front. The error comes only where memory was refused.
fn frame_line(alloc: Global, head: &FrameHead, block: &Block) -> Result<Line, AllocError>
    requires long { 32 ≤ head.now.frame_length }
    requires short { head.now.kind ≡ FrameKind.Data → head.now.frame_length ≤ length block.now }
    ensures { IfOk result (λ line. line_content line ≡ shown_frame head.now.start (frame_in head.now.kind head.now.flags head.now.frame_length block.now)) }
{
    match head.kind {
        FrameKind::Pad => Ok(Line::FramePad {
            start: head.start,
            frame_length: head.frame_length,
        }),
        FrameKind::Data => Ok(Line::FrameData {
            start: head.start,
            flags: head.flags,
            bytes: block.bytes()[..head.frame_length as usize - 32].to_vec(alloc)?,
        }),
    }
}

/// Reads the frame where a reader stands, moves the reader past it, and says what it is. At an error memory was refused, and
/// the reader stays.
pub fn read_line(
    alloc: Global,
    log: &mut LogHand,
    reader: usize,
    block: &mut Block,
) -> Result<Line, AllocError>
    requires reader { HasConsumer log.old reader }
    requires room { log.old.identity.geometry.mtu ≤ length block.old }
    ensures same_length { length block.new ≡ length block.old }
    ensures reads { IfOk result (λ line. ReadsLine log.old reader (line_content line) log.new) }
    ensures stays { OnErr result (log.new ≡ log.old) }
    ensures moves { MovesReader reader log.old reader log.new }
{
    let Some(head) = log.next(reader, block) else {
        return Ok(Line::NoMessage);
    };
    let line = frame_line(alloc, &head, block)?;
    let _ = log.advance(reader);
    Ok(line)
}

/// A reader joins, unless somebody has its number.
pub fn join_line(log: &mut LogHand, reader: usize) -> Line
    requires { reader < 8 }
    ensures { JoinsLine log.old reader (line_content result) log.new }
{
    // What always holds of it, for the proof.
    log.is_whole();
    if log.has_consumer(reader) {
        return Line::Bad;
    }
    Line::Joined(log.join(reader))
}

/// A reader leaves, unless nobody has its number, or the sender has it.
pub fn leave_line(log: &mut LogHand, reader: usize) -> Line
    requires low { reader < 8 }
    requires sender { HasConsumer log.old 0 }
    ensures { LeavesLine log.old reader (line_content result) log.new }
{
    if reader == 0 || !log.has_consumer(reader) {
        return Line::Bad;
    }
    log.leave(reader);
    Line::Left
}
