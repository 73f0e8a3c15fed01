//! What each line of a script does, and what it prints.

ghost use Rattle.std.specs.Prelude.{◌≡◌, ◌≤◌, ℕ, ◌++◌, length, OnOk, map};
ghost use Rattle.theory.specs.Position.{max_message};
ghost use Rattle.receiver.specs.Subscribing.{answer_of};
ghost use Rattle.script_meaning.specs.LineContents as content;
ghost use Rattle.script_meaning.specs.LineContents.{OfReceiver};
ghost use Rattle.simulation.specs.Lines.{line_content, line_contents};
ghost use Rattle.simulation.specs.Simulated.{IsAnswered, IsOffered, StandsSomewhere};
ghost use Rattle.script.specs.Meaning as commands;

use crate::line::{Line, add_line};
use crate::log_lines::{
    abort_line, claim_line, commit_line, join_line, leave_line, letters, offer_line, read_line,
};
use crate::simulation::Simulation;
use assembler::Message;
use flow_control::keeps_enough;
use one_hand::Claims;
use receiver::{Outcome, PollError, Positions};
use script::{Command, PartyNumber};
use script_meaning::sends_again_what_it_sent;
use sender::{SenderEvent, near_starts_suffice};
use std::alloc::{AllocError, Global};

/// Adds the lines of what became of a datagram's frames.
fn tell(lines: &mut Vec<Line>, outcomes: &[Outcome]) -> Result<(), AllocError>
    ensures { OnOk result (line_contents lines.new.items ≡ line_contents lines.old.items ++ map OfReceiver outcomes.now) }
{
    for outcome in outcomes {
        lines.push(Line::Receiver(*outcome))?;
    }
    Ok(())
}

/// What a poll's answer prints.
fn poll_line(answer: Result<Option<Message<Global>>, PollError>) -> Line
    ensures { line_content result ≡ content.poll_line (answer_of answer) }
{
    match answer {
        Ok(Some(message)) => Line::Message(message),
        Ok(None) => Line::NoMessage,
        Err(PollError::NoImage) => Line::Bad,
        Err(PollError::Unassembled(error)) => Line::Assembly(error),
    }
}

/// What an image's positions print.
fn positions_line(positions: Option<Positions>) -> Line
    ensures { line_content result ≡ content.positions_line positions }
{
    match positions {
        None => Line::Bad,
        Some(positions) => Line::Image {
            least: positions.least,
            rebuilt: positions.rebuilt,
            high: positions.high_water,
        },
    }
}

impl Simulation {
    /// Plays one command, and adds its lines. The error is that memory was refused; then nothing is said of what stands.
    pub fn play(&mut self, command: &Command, lines: &mut Vec<Line>) -> Result<(), AllocError>
        requires { StandsSomewhere self.old }
        ensures { OnOk result (IsAnswered self.old (commands.content_of command.now) lines.old.items lines.new.items self.new) }
    {
        match command {
            Command::Group { .. } => self.group(lines),
            Command::Connect => self.connect(lines),
            Command::Disconnect => self.disconnect(lines),
            Command::Close => self.close(lines),
            Command::Limit => self.limit(lines),
            Command::Offer { publisher, message } => self.offer(*publisher, message, lines),
            Command::OfferSize { publisher, size } => self.offer_size(*publisher, *size, lines),
            Command::Claim { publisher, size } => self.claim(*publisher, *size, lines),
            Command::Commit { publisher } => self.commit(*publisher, lines),
            Command::Abort { publisher } => self.abort(*publisher, lines),
            Command::Read { reader } => self.read(*reader, lines),
            Command::Join { reader } => self.join(*reader, lines),
            Command::Leave { reader } => self.leave(*reader, lines),
            Command::Send { now } => self.send(*now, lines),
            Command::Deliver {
                packet,
                receiver,
                now,
            } => self.deliver(*packet, *receiver, *now, lines),
            Command::Raw {
                receiver,
                now,
                bytes,
            } => self.raw(*receiver, *now, bytes, lines),
            Command::Tick { receiver, now } => self.tick(*receiver, *now, lines),
            Command::Reply { packet, now } => self.reply(*packet, *now, lines),
            Command::RawBack { now, bytes } => self.raw_back(*now, bytes, lines),
            Command::Poll { receiver } => self.poll(*receiver, lines),
            Command::Image { receiver } => self.image(*receiver, lines),
        }
    }

    /// The flow control had it as the log opened.
    fn group(&self, lines: &mut Vec<Line>) -> Result<(), AllocError>
        ensures { (size : ℕ) → OnOk result (IsAnswered self.now (commands.Group size) lines.old.items lines.new.items self.now) }
    {
        add_line(lines, Line::Done)
    }

    fn connect(&mut self, lines: &mut Vec<Line>) -> Result<(), AllocError>
        ensures { OnOk result (IsAnswered self.old commands.Connect lines.old.items lines.new.items self.new) }
    {
        self.log.set_connected(true);
        add_line(lines, Line::Done)
    }

    fn disconnect(&mut self, lines: &mut Vec<Line>) -> Result<(), AllocError>
        ensures { OnOk result (IsAnswered self.old commands.Disconnect lines.old.items lines.new.items self.new) }
    {
        self.log.set_connected(false);
        add_line(lines, Line::Done)
    }

    fn close(&mut self, lines: &mut Vec<Line>) -> Result<(), AllocError>
        ensures { OnOk result (IsAnswered self.old commands.Close lines.old.items lines.new.items self.new) }
    {
        self.log.set_closed();
        add_line(lines, Line::Done)
    }

    fn limit(&mut self, lines: &mut Vec<Line>) -> Result<(), AllocError>
        ensures { OnOk result (IsAnswered self.old commands.Limit lines.old.items lines.new.items self.new) }
    {
        // What always holds of it, for the proof.
        self.log.is_whole();
        let limit = self.log.clean_and_limit();
        add_line(lines, Line::Limit(limit))
    }

    fn offer(
        &mut self,
        publisher: PartyNumber,
        message: &[u8],
        lines: &mut Vec<Line>,
    ) -> Result<(), AllocError>
        ensures { OnOk result (IsAnswered self.old (commands.Offer publisher.number message.now) lines.old.items lines.new.items self.new) }
    {
        if message.len() > self.log.geometry().max_message() as usize {
            return add_line(lines, Line::Bad);
        }
        self.offer_short(publisher, message, lines)
    }

    fn offer_size(
        &mut self,
        publisher: PartyNumber,
        size: u64,
        lines: &mut Vec<Line>,
    ) -> Result<(), AllocError>
        ensures { OnOk result (IsAnswered self.old (commands.OfferSize publisher.number size) lines.old.items lines.new.items self.new) }
    {
        if size > u64::from(self.log.geometry().max_message()) {
            return add_line(lines, Line::Bad);
        }
        let message = letters(*lines.allocator(), size as usize)?;
        self.offer_short(publisher, &message, lines)
    }

    /// Offers a message that the log can hold, and adds its line.
    fn offer_short(
        &mut self,
        publisher: PartyNumber,
        message: &[u8],
        lines: &mut Vec<Line>,
    ) -> Result<(), AllocError>
        requires { length message.now ≤ max_message self.old.log.identity.geometry }
        ensures { OnOk result (IsOffered self.old publisher.number message.now lines.old.items lines.new.items self.new) }
    {
        let line = offer_line(&mut self.log, publisher, message);
        add_line(lines, line)
    }

    fn claim(
        &mut self,
        publisher: PartyNumber,
        size: u64,
        lines: &mut Vec<Line>,
    ) -> Result<(), AllocError>
        ensures { OnOk result (IsAnswered self.old (commands.Claim publisher.number size) lines.old.items lines.new.items self.new) }
    {
        if size > u64::from(self.log.geometry().max_payload()) {
            return add_line(lines, Line::Bad);
        }
        let line = claim_line(&mut self.log, publisher, size as u32);
        add_line(lines, line)
    }

    fn commit(&mut self, publisher: PartyNumber, lines: &mut Vec<Line>) -> Result<(), AllocError>
        ensures { OnOk result (IsAnswered self.old (commands.Commit publisher.number) lines.old.items lines.new.items self.new) }
    {
        let line = commit_line(*lines.allocator(), &mut self.log, publisher)?;
        add_line(lines, line)
    }

    fn abort(&mut self, publisher: PartyNumber, lines: &mut Vec<Line>) -> Result<(), AllocError>
        ensures { OnOk result (IsAnswered self.old (commands.Abort publisher.number) lines.old.items lines.new.items self.new) }
    {
        let line = abort_line(&mut self.log, publisher);
        add_line(lines, line)
    }

    fn read(&mut self, reader: PartyNumber, lines: &mut Vec<Line>) -> Result<(), AllocError>
        ensures { OnOk result (IsAnswered self.old (commands.Read reader.number) lines.old.items lines.new.items self.new) }
    {
        if reader.number == 0 || !self.log.has_consumer(reader.number) {
            return add_line(lines, Line::Bad);
        }
        let alloc = *lines.allocator();
        let line = read_line(alloc, &mut self.log, reader.number, &mut self.block)?;
        add_line(lines, line)
    }

    fn join(&mut self, reader: PartyNumber, lines: &mut Vec<Line>) -> Result<(), AllocError>
        ensures { OnOk result (IsAnswered self.old (commands.Join reader.number) lines.old.items lines.new.items self.new) }
    {
        let line = join_line(&mut self.log, reader.number);
        add_line(lines, line)
    }

    fn leave(&mut self, reader: PartyNumber, lines: &mut Vec<Line>) -> Result<(), AllocError>
        ensures { OnOk result (IsAnswered self.old (commands.Leave reader.number) lines.old.items lines.new.items self.new) }
    {
        let line = leave_line(&mut self.log, reader.number);
        add_line(lines, line)
    }

    fn send(&mut self, now: u64, lines: &mut Vec<Line>) -> Result<(), AllocError>
        requires { StandsSomewhere self.old }
        ensures { OnOk result (IsAnswered self.old (commands.Send now) lines.old.items lines.new.items self.new) }
    {
        // Laws that the proof cites.
        keeps_enough();
        near_starts_suffice();
        sends_again_what_it_sent();
        let _ = self
            .sender
            .step(&mut self.log, SenderEvent::Tick, now, &mut self.outbox);
        self.packets.tell_all(&self.outbox, lines)
    }

    fn reply(&mut self, packet: u64, now: u64, lines: &mut Vec<Line>) -> Result<(), AllocError>
        requires { StandsSomewhere self.old }
        ensures { OnOk result (IsAnswered self.old (commands.Reply packet now) lines.old.items lines.new.items self.new) }
    {
        let Some(bytes) = self.packets.get(packet) else {
            return add_line(lines, Line::Bad);
        };
        // Laws that the proof cites.
        keeps_enough();
        near_starts_suffice();
        sends_again_what_it_sent();
        let event = SenderEvent::Datagram(bytes);
        let answer = self
            .sender
            .step(&mut self.log, event, now, &mut self.outbox);
        add_line(lines, Line::Sender(answer))?;
        self.packets.give_all(&self.outbox, lines)
    }

    fn deliver(
        &mut self,
        packet: u64,
        receiver: PartyNumber,
        now: u64,
        lines: &mut Vec<Line>,
    ) -> Result<(), AllocError>
        ensures { OnOk result (IsAnswered self.old (commands.Deliver packet receiver.number now) lines.old.items lines.new.items self.new) }
    {
        let Some(bytes) = self.packets.get(packet) else {
            return add_line(lines, Line::Bad);
        };
        let outcomes = self.subscribers[receiver.number].on_datagram(bytes, now)?;
        tell(lines, &outcomes)
    }

    fn raw(
        &mut self,
        receiver: PartyNumber,
        now: u64,
        bytes: &[u8],
        lines: &mut Vec<Line>,
    ) -> Result<(), AllocError>
        ensures { OnOk result (IsAnswered self.old (commands.Raw receiver.number now bytes.now) lines.old.items lines.new.items self.new) }
    {
        let outcomes = self.subscribers[receiver.number].on_datagram(bytes, now)?;
        tell(lines, &outcomes)
    }

    fn raw_back(&mut self, now: u64, bytes: &[u8], lines: &mut Vec<Line>) -> Result<(), AllocError>
        requires { StandsSomewhere self.old }
        ensures { OnOk result (IsAnswered self.old (commands.RawBack now bytes.now) lines.old.items lines.new.items self.new) }
    {
        // Laws that the proof cites.
        keeps_enough();
        near_starts_suffice();
        sends_again_what_it_sent();
        let event = SenderEvent::Datagram(bytes);
        let answer = self
            .sender
            .step(&mut self.log, event, now, &mut self.outbox);
        add_line(lines, Line::Sender(answer))?;
        self.packets.give_all(&self.outbox, lines)
    }

    fn tick(
        &mut self,
        receiver: PartyNumber,
        now: u64,
        lines: &mut Vec<Line>,
    ) -> Result<(), AllocError>
        ensures { OnOk result (IsAnswered self.old (commands.Tick receiver.number now) lines.old.items lines.new.items self.new) }
    {
        let replies = self.subscribers[receiver.number].tick(now);
        self.packets.tell_replies(&replies, lines)
    }

    fn poll(&mut self, receiver: PartyNumber, lines: &mut Vec<Line>) -> Result<(), AllocError>
        ensures { OnOk result (IsAnswered self.old (commands.Poll receiver.number) lines.old.items lines.new.items self.new) }
    {
        let answer = self.subscribers[receiver.number].poll();
        add_line(lines, poll_line(answer))
    }

    fn image(&self, receiver: PartyNumber, lines: &mut Vec<Line>) -> Result<(), AllocError>
        ensures { OnOk result (IsAnswered self.now (commands.Image receiver.number) lines.old.items lines.new.items self.now) }
    {
        let positions = self.subscribers[receiver.number].positions();
        add_line(lines, positions_line(positions))
    }
}
