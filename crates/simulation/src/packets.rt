//! The packets that a script's parts have given out, by their numbers.

ghost use Rattle.std.specs.Prelude.{◌≡◌, ◌++◌, ◌∷◌, [], ◌≤◌, length, slice_get, OnOk};
ghost use Rattle.std.specs.Option.{option_copied};
ghost use Rattle.theory.specs.Wire.{IsFrame, spelling};
ghost use Rattle.frames.specs.Frames.{wire};
ghost use Rattle.script_meaning.specs.Answers.{or_nothing, packet_lines};
ghost use Rattle.simulation.specs.Packed.{bytes_of, nak_wires, status_wires};
ghost use Rattle.receiver.specs.Receiving.{replied};
ghost use Rattle.std.specs.List.{AllByRecursion};
ghost use Rattle.script_meaning.specs.LineContents.{Packet};
ghost use Rattle.simulation.specs.Lines.{line_contents};

use crate::line::Line;
use frames::{Frame, Nak, Status, write_frame};
use receiver::Replies;
use sender::Outbox;
use std::alloc::{AllocError, Global};
use std::marker::Model;

/// Each packet that was given out, in order; the first has number 0.
#[derive(Drop)]
pub struct Packets {
    alloc: Global,
    packets: Vec<Vec<u8>>,
}

impl Model for Packets {
    ghost use Rattle.std.specs.Prelude.{ℕ, List, map};

    ghost Value = { List (List ℕ) };

    ghost view = { λ p. map (λ v. v.items) p.packets.items };
}

impl Packets {
    /// No packet yet.
    pub fn new(alloc: Global) -> Packets
        ensures { result ≡ [] }
    {
        Packets {
            alloc,
            packets: Vec::new(alloc),
        }
    }

    /// The packet with this number, if it was given out.
    pub fn get(&self, number: u64) -> Option<&[u8]>
        ensures { option_copied result ≡ slice_get self.now number }
    {
        let index = usize::try_from(number).ok()?;
        Some(self.packets.get(index)?.as_slice())
    }

    /// Gives a packet the next number, and adds its line. At an error memory was refused, and the packet may have a
    /// number without a line.
    pub fn give(&mut self, datagram: &[u8], lines: &mut Vec<Line>) -> Result<(), AllocError>
        ensures given { OnOk result (self.new ≡ self.old ++ datagram.now ∷ []) }
        ensures line { OnOk result (line_contents lines.new.items ≡ line_contents lines.old.items ++ Packet (length self.old) datagram.now ∷ []) }
    {
        let number = self.packets.len() as u64;
        self.packets.push(Vec::from_slice(self.alloc, datagram)?)?;
        let bytes = Vec::from_slice(self.alloc, datagram)?;
        lines.push(Line::Packet { number, bytes })?;
        Ok(())
    }

    /// Gives each datagram of the outbox the next number.
    pub fn give_all(&mut self, outbox: &Outbox, lines: &mut Vec<Line>) -> Result<(), AllocError>
        ensures given { OnOk result (self.new ≡ self.old ++ outbox.now.datagrams) }
        ensures line { OnOk result (line_contents lines.new.items ≡ line_contents lines.old.items ++ packet_lines (length self.old) outbox.now.datagrams) }
    {
        for index in 0..outbox.len() {
            let Some(datagram) = outbox.datagram(index) else {
                unreachable!()
            };
            self.give(datagram, lines)?;
        }
        Ok(())
    }

    /// Gives each datagram of the outbox the next number, or says that there is none.
    pub fn tell_all(&mut self, outbox: &Outbox, lines: &mut Vec<Line>) -> Result<(), AllocError>
        ensures given { OnOk result (self.new ≡ self.old ++ outbox.now.datagrams) }
        ensures line { OnOk result (line_contents lines.new.items ≡ line_contents lines.old.items ++ or_nothing (packet_lines (length self.old) outbox.now.datagrams)) }
    {
        if outbox.len() == 0 {
            lines.push(Line::Nothing)?;
            return Ok(());
        }
        self.give_all(outbox, lines)
    }

    /// Gives a status message, if there is one, the next number.
    fn give_status(
        &mut self,
        asks: bool,
        status: Option<Status>,
        lines: &mut Vec<Line>,
    ) -> Result<(), AllocError>
        requires { AllByRecursion IsFrame (status_wires asks status) }
        ensures given { OnOk result (self.new ≡ self.old ++ bytes_of (status_wires asks status)) }
        ensures line { OnOk result (line_contents lines.new.items ≡ line_contents lines.old.items ++ packet_lines (length self.old) (bytes_of (status_wires asks status))) }
    {
        match status {
            None => Ok(()),
            Some(status) => self.give_frame(&Frame::Status { asks, status }, lines),
        }
    }

    /// Gives a negative acknowledgement, if there is one, the next number.
    fn give_nak(&mut self, nak: Option<Nak>, lines: &mut Vec<Line>) -> Result<(), AllocError>
        requires { AllByRecursion IsFrame (nak_wires nak) }
        ensures given { OnOk result (self.new ≡ self.old ++ bytes_of (nak_wires nak)) }
        ensures line { OnOk result (line_contents lines.new.items ≡ line_contents lines.old.items ++ packet_lines (length self.old) (bytes_of (nak_wires nak))) }
    {
        match nak {
            None => Ok(()),
            Some(nak) => self.give_frame(&Frame::Nak(nak), lines),
        }
    }

    /// Gives what a tick sends the next numbers.
    fn give_replies(&mut self, replies: &Replies, lines: &mut Vec<Line>) -> Result<(), AllocError>
        requires { AllByRecursion IsFrame (replied replies.now) }
        ensures given { OnOk result (self.new ≡ self.old ++ bytes_of (replied replies.now)) }
        ensures line { OnOk result (line_contents lines.new.items ≡ line_contents lines.old.items ++ packet_lines (length self.old) (bytes_of (replied replies.now))) }
    {
        self.give_status(true, replies.asking, lines)?;
        self.give_nak(replies.nak, lines)?;
        self.give_status(false, replies.status, lines)
    }

    /// Gives what a tick sends the next numbers, or says that it sends nothing.
    pub fn tell_replies(
        &mut self,
        replies: &Replies,
        lines: &mut Vec<Line>,
    ) -> Result<(), AllocError>
        requires { AllByRecursion IsFrame (replied replies.now) }
        ensures given { OnOk result (self.new ≡ self.old ++ bytes_of (replied replies.now)) }
        ensures line { OnOk result (line_contents lines.new.items ≡ line_contents lines.old.items ++ or_nothing (packet_lines (length self.old) (bytes_of (replied replies.now)))) }
    {
        if replies.asking.is_none() && replies.nak.is_none() && replies.status.is_none() {
            lines.push(Line::Nothing)?;
            return Ok(());
        }
        self.give_replies(replies, lines)
    }

    /// Gives a frame of at most 40 bytes, as its spelling, the next number.
    pub fn give_frame(&mut self, frame: &Frame<'_>, lines: &mut Vec<Line>) -> Result<(), AllocError>
        requires frame { IsFrame (wire frame.now) }
        requires short { length (spelling (wire frame.now)) ≤ 40 }
        ensures given { OnOk result (self.new ≡ self.old ++ spelling (wire frame.now) ∷ []) }
        ensures line { OnOk result (line_contents lines.new.items ≡ line_contents lines.old.items ++ Packet (length self.old) (spelling (wire frame.now)) ∷ []) }
    {
        let mut buffer = [0; 40];
        self.give(spelled(frame, &mut buffer), lines)
    }
}

/// The frame's spelling, written to the buffer's front.
fn spelled<'a>(frame: &Frame<'_>, buffer: &'a mut [u8]) -> &'a [u8]
    requires frame { IsFrame (wire frame.now) }
    requires room { length (spelling (wire frame.now)) ≤ length buffer.old }
    ensures { result.now ≡ spelling (wire frame.now) }
{
    let size = write_frame(frame, buffer);
    &buffer[..size]
}
