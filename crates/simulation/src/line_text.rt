//! How lines are printed.

ghost use Rattle.std.specs.Prelude.{Some};
ghost use Rattle.simulation.specs.Lines.{line_content};
ghost use Rattle.simulation.specs.LineTexts.{line_text, shares_text};
ghost use Rattle.script_meaning.specs.LineContents as content;

use crate::line::Line;
use std::fmt;
use text::Hexadecimal;

/// A book's shares, each behind a space.
#[derive(Clone, Copy)]
struct Shares<'a>(&'a [u64]);

impl fmt::Display for Shares<'_> {
    ghost output = { λ shares. Some (shares_text shares.0.now) };

    fn fmt<W: fmt::Write>(&self, f: &mut fmt::Formatter<W>) -> fmt::Result {
        for share in self.0 {
            write!(f, " {share}")?;
        }
        Ok(())
    }
}

/// A message's frame that a reader passed.
#[derive(Clone, Copy)]
struct PassedFrame<'a> {
    start: u64,
    flags: u8,
    bytes: &'a [u8],
}

impl fmt::Display for PassedFrame<'_> {
    ghost output = { λ frame. Some (line_text (content.FrameData frame.start frame.flags frame.bytes.now)) };

    fn fmt<W: fmt::Write>(&self, f: &mut fmt::Formatter<W>) -> fmt::Result {
        let start = self.start;
        let flags = [self.flags];
        let flags = Hexadecimal(&flags);
        let text = Hexadecimal(self.bytes);
        write!(f, "data {start} {flags} {text}")
    }
}

impl fmt::Display for Line {
    ghost output = { λ line. Some (line_text (line_content line)) };

    fn fmt<W: fmt::Write>(&self, f: &mut fmt::Formatter<W>) -> fmt::Result {
        match self {
            Line::Open => f.write_str("open"),
            Line::BadGeometry(error) => f.write_str(error.code()),
            Line::BadLog(error) => f.write_str(error.code()),
            Line::Done => f.write_str("ok"),
            Line::Limit(limit) => write!(f, "limit {limit}"),
            Line::Position(position) => write!(f, "position {position}"),
            Line::Claimed { start, end } => write!(f, "claimed {start} {end}"),
            Line::FrameData {
                start,
                flags,
                bytes,
            } => {
                let frame = PassedFrame {
                    start: *start,
                    flags: *flags,
                    bytes,
                };
                write!(f, "{frame}")
            }
            Line::FramePad {
                start,
                frame_length,
            } => { write!(f, "pad {start} {frame_length}") }
            Line::Joined(position) => write!(f, "joined {position}"),
            Line::Left => f.write_str("left"),
            Line::Refused(refusal) => write!(f, "refused {refusal}"),
            Line::Packet { number, bytes } => {
                let text = Hexadecimal(bytes);
                write!(f, "packet {number} {text}")
            }
            Line::Nothing => f.write_str("nothing"),
            Line::Receiver(outcome) => write!(f, "{outcome}"),
            Line::Sender(answer) => write!(f, "{answer}"),
            Line::Message(message) => {
                let text = Hexadecimal(&message.bytes);
                write!(f, "message {text}")
            }
            Line::NoMessage => f.write_str("none"),
            Line::Assembly(error) => f.write_str(error.code()),
            Line::Image {
                least,
                rebuilt,
                high,
            } => { write!(f, "image least {least} rebuilt {rebuilt} high {high}") }
            Line::Bad => f.write_str("bad"),
            Line::Book(book) => {
                let start = book.start;
                let tail = book.tail;
                let shares = Shares(&book.shares);
                write!(f, "book {start} {tail}{shares}")
            }
        }
    }
}
