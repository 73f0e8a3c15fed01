ghost use Rattle.std.specs.Prelude.{◌≡◌, ◌^◌, ◌≤◌, IfSome};
ghost use Rattle.script.specs.Meaning.{opening, content_of, is_group};
ghost use Rattle.script.specs.Reading.{ReturnsRead, GivesAt, number_at, signed_at, last_number, last_bytes, offer_hex_of, offer_size_of, form_of, offer_of, raw_of, raw_back_of, named_of, send_of, deliver_of, reply_of, bare_of, party_alone_of, party_and_number_of, reader_of, of_party, numbered_of, plain_of, command_of, command_at, group_of, group_size_of, shape_at, opening_of, log_of, is_log};
ghost use Rattle.script.specs.Rests.{shaped, words_left};

use crate::command::{Command, GroupSize, LogLine, PartyNumber};
use crate::fault::ScriptFault;
use crate::pieces::Words;
use crate::values::message_bytes;
use std::alloc::Global;
use text::{number, signed};

/// The number that the first word spells, if it is at most `most`, and the words after it.
#[tactic(auto, unfolding(crate::specs::Reading::number_at))]
fn number_at(words: Words<'_>, most: u64) -> Option<(u64, Words<'_>)>
    ensures value { ReturnsRead (λ found. (found.0, words_left found.1)) result (number_at most (words_left words.entry)) }
    ensures bound { IfSome result (λ found. found.0 ≤ most) }
{
    let (word, rest) = words.first()?;
    let value = number(word, most)?;
    Some((value, rest))
}

/// The signed number that the first word spells, and the words after it.
#[tactic(auto, unfolding(crate::specs::Reading::signed_at))]
fn signed_at(words: Words<'_>) -> Option<(i32, Words<'_>)>
    ensures { ReturnsRead (λ found. (found.0, words_left found.1)) result (signed_at (words_left words.entry)) }
{
    let (word, rest) = words.first()?;
    let value = signed(word)?;
    Some((value, rest))
}

/// The publisher, reader or receiver that the first word names, and the words after it.
fn party_number_at(words: Words<'_>) -> Option<(PartyNumber, Words<'_>)>
    ensures { ReturnsRead (λ found. (found.0.number, words_left found.1)) result (number_at 7 (words_left words.entry)) }
{
    let (number, rest) = number_at(words, 7)?;
    let party = PartyNumber {
        number: number as usize,
    };
    Some((party, rest))
}

/// The number that the only word spells, if it is one of 64 bits.
#[tactic(auto, unfolding(crate::specs::Reading::last_number))]
fn last_number(words: Words<'_>) -> Option<u64>
    ensures { ReturnsRead (λ found. found) result (last_number (words_left words.entry)) }
{
    let (value, rest) = number_at(words, u64::MAX)?;
    rest.end()?;
    Some(value)
}

/// How many receivers a group has at the most.
const MOST_RECEIVERS: u64 = 8;

/// The number that the only word spells, if a group can have so many receivers.
#[tactic(auto, unfolding(crate::specs::Reading::group_size_of))]
fn group_size(words: Words<'_>) -> Option<u64>
    ensures value { ReturnsRead (λ found. found) result (group_size_of (words_left words.entry)) }
    ensures bound { IfSome result (λ size. size ≤ 8) }
{
    let (size, rest) = number_at(words, MOST_RECEIVERS)?;
    rest.end()?;
    Some(size)
}

#[tactic(auto, unfolding(crate::specs::Reading::group_of))]
fn group(words: Words<'_>) -> Option<Command>
    ensures { ReturnsRead content_of result (group_of (words_left words.entry)) }
{
    let size = group_size(words)?;
    if size > 0 {
        let size = GroupSize {
            receivers: size as usize,
        };
        Some(Command::Group { size })
    } else {
        None
    }
}

#[tactic(auto, unfolding(crate::specs::Reading::send_of))]
fn send(words: Words<'_>) -> Option<Command>
    ensures { ReturnsRead content_of result (send_of (words_left words.entry)) }
{
    let now = last_number(words)?;
    Some(Command::Send { now })
}

#[tactic(auto, unfolding(crate::specs::Reading::deliver_of))]
fn deliver(words: Words<'_>) -> Option<Command>
    ensures { ReturnsRead content_of result (deliver_of (words_left words.entry)) }
{
    let (packet, rest) = number_at(words, u64::MAX)?;
    let (receiver, rest) = party_number_at(rest)?;
    let now = last_number(rest)?;
    Some(Command::Deliver {
        packet,
        receiver,
        now,
    })
}

#[tactic(auto, unfolding(crate::specs::Reading::reply_of))]
fn reply(words: Words<'_>) -> Option<Command>
    ensures { ReturnsRead content_of result (reply_of (words_left words.entry)) }
{
    let (packet, rest) = number_at(words, u64::MAX)?;
    let now = last_number(rest)?;
    Some(Command::Reply { packet, now })
}

/// The bytes that the last word spells, of the line with this number.
#[tactic(auto, unfolding(crate::specs::Reading::last_bytes))]
fn last_bytes(alloc: Global, number: u64, words: Words<'_>) -> Result<Vec<u8>, ScriptFault>
    ensures { GivesAt number (λ bytes. bytes.items) result (last_bytes (words_left words.entry)) }
{
    let fault = ScriptFault::Line(number);
    let (digits, rest) = words.first().ok_or(fault)?;
    let bytes = message_bytes(alloc, digits)?.ok_or(fault)?;
    rest.end().ok_or(fault)?;
    Ok(bytes)
}

#[tactic(auto, unfolding(crate::specs::Reading::raw_of))]
fn raw(alloc: Global, number: u64, words: Words<'_>) -> Result<Command, ScriptFault>
    ensures { GivesAt number content_of result (raw_of (words_left words.entry)) }
{
    let fault = ScriptFault::Line(number);
    let (receiver, rest) = party_number_at(words).ok_or(fault)?;
    let (now, rest) = number_at(rest, u64::MAX).ok_or(fault)?;
    let bytes = last_bytes(alloc, number, rest)?;
    Ok(Command::Raw {
        receiver,
        now,
        bytes,
    })
}

#[tactic(auto, unfolding(crate::specs::Reading::raw_back_of))]
fn raw_back(alloc: Global, number: u64, words: Words<'_>) -> Result<Command, ScriptFault>
    ensures { GivesAt number content_of result (raw_back_of (words_left words.entry)) }
{
    let fault = ScriptFault::Line(number);
    let (now, rest) = number_at(words, u64::MAX).ok_or(fault)?;
    let bytes = last_bytes(alloc, number, rest)?;
    Ok(Command::RawBack { now, bytes })
}

/// The words behind `hex` of a publisher's offer, of the line with this number.
#[tactic(auto, unfolding(crate::specs::Reading::offer_hex_of))]
fn offer_hex(
    alloc: Global,
    number: u64,
    publisher: PartyNumber,
    words: Words<'_>,
) -> Result<Command, ScriptFault>
    ensures { GivesAt number content_of result (offer_hex_of publisher.number (words_left words.entry)) }
{
    let message = last_bytes(alloc, number, words)?;
    Ok(Command::Offer { publisher, message })
}

/// The words behind `size` of a publisher's offer.
#[tactic(auto, unfolding(crate::specs::Reading::offer_size_of))]
fn offer_size(publisher: PartyNumber, words: Words<'_>) -> Option<Command>
    ensures { ReturnsRead content_of result (offer_size_of publisher.number (words_left words.entry)) }
{
    let size = last_number(words)?;
    Some(Command::OfferSize { publisher, size })
}

/// A publisher's offer in this form, with the words behind it, of the line with this number.
#[tactic(auto, unfolding(crate::specs::Reading::form_of))]
fn offer_in_form(
    alloc: Global,
    number: u64,
    publisher: PartyNumber,
    form: &[u8],
    words: Words<'_>,
) -> Result<Command, ScriptFault>
    ensures { GivesAt number content_of result (form_of publisher.number form.now (words_left words.entry)) }
{
    if form == b"hex".as_slice() {
        offer_hex(alloc, number, publisher, words)
    } else if form == b"size".as_slice() {
        offer_size(publisher, words).ok_or(ScriptFault::Line(number))
    } else {
        Err(ScriptFault::Line(number))
    }
}

/// The words behind `offer`, of the line with this number.
#[tactic(auto, unfolding(crate::specs::Reading::offer_of))]
fn offer(alloc: Global, number: u64, words: Words<'_>) -> Result<Command, ScriptFault>
    ensures { GivesAt number content_of result (offer_of (words_left words.entry)) }
{
    let fault = ScriptFault::Line(number);
    let (publisher, rest) = party_number_at(words).ok_or(fault)?;
    let (form, rest) = rest.first().ok_or(fault)?;
    offer_in_form(alloc, number, publisher, form, rest)
}

/// The command of this name, behind which nothing stands.
#[tactic(auto, unfolding(crate::specs::Reading::bare_of))]
fn bare(name: &[u8]) -> Option<Command>
    ensures { ReturnsRead content_of result (bare_of name.now) }
{
    if name == b"connect".as_slice() {
        Some(Command::Connect)
    } else if name == b"disconnect".as_slice() {
        Some(Command::Disconnect)
    } else if name == b"close".as_slice() {
        Some(Command::Close)
    } else if name == b"limit".as_slice() {
        Some(Command::Limit)
    } else {
        None
    }
}

/// The command of this name, behind which a reader stands alone.
#[tactic(auto, unfolding(crate::specs::Reading::reader_of))]
fn reader_alone(name: &[u8], reader: PartyNumber) -> Option<Command>
    ensures { ReturnsRead content_of result (reader_of name.now reader.number) }
{
    if name == b"read".as_slice() {
        Some(Command::Read { reader })
    } else if name == b"join".as_slice() {
        Some(Command::Join { reader })
    } else if name == b"leave".as_slice() {
        Some(Command::Leave { reader })
    } else {
        None
    }
}

/// The command of this name, behind which a party stands alone.
#[tactic(auto, unfolding(crate::specs::Reading::party_alone_of))]
fn party_alone(name: &[u8], party: PartyNumber) -> Option<Command>
    ensures { ReturnsRead content_of result (party_alone_of name.now party.number) }
{
    if name == b"commit".as_slice() {
        Some(Command::Commit { publisher: party })
    } else if name == b"abort".as_slice() {
        Some(Command::Abort { publisher: party })
    } else if name == b"poll".as_slice() {
        Some(Command::Poll { receiver: party })
    } else if name == b"image".as_slice() {
        Some(Command::Image { receiver: party })
    } else if party.number > 0 {
        reader_alone(name, party)
    } else {
        None
    }
}

/// The command of this name, behind which a party and a number stand.
#[tactic(auto, unfolding(crate::specs::Reading::party_and_number_of))]
fn party_and_number(name: &[u8], party: PartyNumber, number: u64) -> Option<Command>
    ensures { ReturnsRead content_of result (party_and_number_of name.now party.number number) }
{
    if name == b"claim".as_slice() {
        Some(Command::Claim {
            publisher: party,
            size: number,
        })
    } else if name == b"tick".as_slice() {
        Some(Command::Tick {
            receiver: party,
            now: number,
        })
    } else {
        None
    }
}

/// The command of this name, behind which the words begin with a party.
#[tactic(auto, unfolding(crate::specs::Reading::of_party))]
fn of_party(name: &[u8], words: Words<'_>) -> Option<Command>
    ensures { ReturnsRead content_of result (of_party name.now (words_left words.entry)) }
{
    let (party, rest) = party_number_at(words)?;
    match rest.end() {
        Some(()) => party_alone(name, party),
        None => party_and_number(name, party, last_number(rest)?),
    }
}

/// The command of this name, with the words behind it: any that has some, and holds no bytes.
#[tactic(auto, unfolding(crate::specs::Reading::numbered_of))]
fn numbered(name: &[u8], words: Words<'_>) -> Option<Command>
    ensures { ReturnsRead content_of result (numbered_of name.now (words_left words.entry)) }
{
    if name == b"send".as_slice() {
        send(words)
    } else if name == b"deliver".as_slice() {
        deliver(words)
    } else if name == b"reply".as_slice() {
        reply(words)
    } else if name == b"group".as_slice() {
        group(words)
    } else {
        of_party(name, words)
    }
}

/// The command of this name, with the words behind it: any that holds no bytes.
#[tactic(auto, unfolding(crate::specs::Reading::plain_of))]
fn plain(name: &[u8], words: Words<'_>) -> Option<Command>
    ensures { ReturnsRead content_of result (plain_of name.now (words_left words.entry)) }
{
    match words.end() {
        Some(()) => bare(name),
        None => numbered(name, words),
    }
}

/// The command of this name, with the words behind it, of the line with this number.
#[tactic(auto, unfolding(crate::specs::Reading::named_of))]
fn named(alloc: Global, number: u64, name: &[u8], words: Words<'_>) -> Result<Command, ScriptFault>
    ensures { GivesAt number content_of result (named_of name.now (words_left words.entry)) }
{
    if name == b"offer".as_slice() {
        offer(alloc, number, words)
    } else if name == b"raw".as_slice() {
        raw(alloc, number, words)
    } else if name == b"rawback".as_slice() {
        raw_back(alloc, number, words)
    } else {
        plain(name, words).ok_or(ScriptFault::Line(number))
    }
}

/// The command that a line says, which has this number.
#[tactic(auto, unfolding(crate::specs::Reading::command_of))]
fn command(alloc: Global, number: u64, line: &[u8]) -> Result<Command, ScriptFault>
    ensures { GivesAt number content_of result (command_of line.now) }
{
    let fault = ScriptFault::Line(number);
    let (name, rest) = Words::new(line).first().ok_or(fault)?;
    named(alloc, number, name, rest)
}

fn is_group(command: &Command) -> bool
    ensures { result ≡ is_group (content_of command.now) }
{
    matches!(command, Command::Group { .. })
}

/// The command that a line says, which has this number and is the first command or not. Only the first names a group.
#[tactic(auto, unfolding(crate::specs::Reading::command_at))]
pub fn command_at(
    alloc: Global,
    number: u64,
    first: bool,
    line: &[u8],
) -> Result<Command, ScriptFault>
    ensures { GivesAt number content_of result (command_at first line.now) }
{
    let next = command(alloc, number, line)?;
    if !first && is_group(&next) {
        return Err(ScriptFault::Line(number));
    }
    Ok(next)
}

/// The greatest READERS.
const MOST_READERS: u64 = 7;

/// How a log is shaped: the words from TERM_LENGTH to START.
#[derive(Clone, Copy)]
struct Shape {
    term_length: u32,
    mtu: u32,
    initial_term_id: i32,
    start: u64,
}

/// The shape of a log, and the words after it.
#[tactic(auto, unfolding(crate::specs::Reading::shape_at))]
fn shape_at(words: Words<'_>) -> Option<(Shape, Words<'_>)>
    ensures { ReturnsRead (λ found. (shaped found.0, words_left found.1)) result (shape_at (words_left words.entry)) }
{
    let (term_length, rest) = number_at(words, u32::MAX as u64)?;
    let (mtu, rest) = number_at(rest, u32::MAX as u64)?;
    let (initial_term_id, rest) = signed_at(rest)?;
    let (start, rest) = number_at(rest, u64::MAX)?;
    let shape = Shape {
        term_length: term_length as u32,
        mtu: mtu as u32,
        initial_term_id,
        start,
    };
    Some((shape, rest))
}

/// What stands behind `log`.
#[tactic(auto, unfolding(crate::specs::Reading::opening_of))]
fn log_fields(words: Words<'_>) -> Option<LogLine>
    ensures { ReturnsRead opening result (opening_of (words_left words.entry)) }
{
    let (shape, rest) = shape_at(words)?;
    let (session, rest) = signed_at(rest)?;
    let (stream, rest) = signed_at(rest)?;
    let (readers, rest) = number_at(rest, MOST_READERS)?;
    rest.end()?;
    Some(LogLine {
        term_length: shape.term_length,
        mtu: shape.mtu,
        initial_term_id: shape.initial_term_id,
        start: shape.start,
        session,
        stream,
        readers: readers as u32,
    })
}

/// How the log is opened, if the line says so.
#[tactic(auto, unfolding(crate::specs::Reading::log_of))]
pub fn log_line(line: &[u8]) -> Option<LogLine>
    ensures { ReturnsRead opening result (log_of line.now) }
{
    let (name, rest) = Words::new(line).first()?;
    if name == b"log".as_slice() {
        log_fields(rest)
    } else {
        None
    }
}

/// Whether the first word of the line is `log`.
#[tactic(auto, unfolding(crate::specs::Reading::is_log))]
pub fn is_log_line(line: &[u8]) -> bool
    ensures { result ≡ is_log line.now }
{
    match Words::new(line).first() {
        Some((name, _)) => name == b"log".as_slice(),
        None => false,
    }
}
