//! The lines of frames.

ghost use Rattle.std.specs.Prelude.{◌≡◌, ◌+◌, length, Some};
ghost use Rattle.frames.specs.Frames.{header_of, nak_of, setup_of, status_of, wire};
ghost use Rattle.commands.specs.FrameLines.{frame_line, header_text, nak_text, setup_lengths_text, setup_text, status_text};

use frames::{Frame, Header, Nak, Setup, Status};
use std::fmt;
use text::Hexadecimal;

/// A frame as a line of text, without its line feed.
#[derive(Clone, Copy)]
pub struct FrameLine<'a>(pub Frame<'a>);

impl fmt::Display for FrameLine<'_> {
    ghost output = { λ line. Some (frame_line (wire line.0)) };

    fn fmt<W: fmt::Write>(&self, f: &mut fmt::Formatter<W>) -> fmt::Result {
        match self.0 {
            Frame::Data {
                header,
                flags,
                payload,
            } => {
                let flags = [flags];
                let flags = Hexadecimal(&flags);
                let fields = HeaderFields(header);
                let length = frame_length(payload);
                let text = Hexadecimal(payload);
                write!(
                    f,
                    "DATA flags={flags} {fields} length={length} payload={text}"
                )
            }
            Frame::Pad {
                header,
                frame_length,
            } => {
                let fields = HeaderFields(header);
                write!(f, "PAD {fields} length={frame_length}")
            }
            Frame::Heartbeat { header } => {
                let fields = HeaderFields(header);
                write!(f, "HEARTBEAT {fields}")
            }
            Frame::Nak(nak) => {
                let fields = NakFields(nak);
                write!(f, "NAK {fields}")
            }
            Frame::Status { asks, status } => {
                let flags = [if asks { 0x80 } else { 0 }];
                let flags = Hexadecimal(&flags);
                let fields = StatusFields(status);
                write!(f, "SM flags={flags} {fields}")
            }
            Frame::Setup(setup) => {
                let fields = SetupFields(setup);
                write!(f, "SETUP {fields}")
            }
        }
    }
}

/// The frame length of a DATA frame with this payload, which counts its header and no alignment byte.
fn frame_length(payload: &[u8]) -> usize
    ensures { result ≡ 32 + length payload.now }
{
    32 + payload.len()
}

/// The fields that a DATA frame, a padding and a heartbeat have in common.
#[derive(Clone, Copy)]
struct HeaderFields(Header);

impl fmt::Display for HeaderFields {
    ghost output = { λ fields. Some (header_text (header_of fields.0)) };

    fn fmt<W: fmt::Write>(&self, f: &mut fmt::Formatter<W>) -> fmt::Result {
        let Header {
            term_offset,
            session,
            stream,
            term_id,
            reserved,
        } = self.0;
        write!(
            f,
            "term={term_id} offset={term_offset} session={session} stream={stream} reserved={reserved}"
        )
    }
}

#[derive(Clone, Copy)]
struct NakFields(Nak);

impl fmt::Display for NakFields {
    ghost output = { λ fields. Some (nak_text (nak_of fields.0)) };

    fn fmt<W: fmt::Write>(&self, f: &mut fmt::Formatter<W>) -> fmt::Result {
        let Nak {
            session,
            stream,
            term_id,
            term_offset,
            length,
        } = self.0;
        write!(
            f,
            "session={session} stream={stream} term={term_id} offset={term_offset} length={length}"
        )
    }
}

#[derive(Clone, Copy)]
struct StatusFields(Status);

impl fmt::Display for StatusFields {
    ghost output = { λ fields. Some (status_text (status_of fields.0)) };

    fn fmt<W: fmt::Write>(&self, f: &mut fmt::Formatter<W>) -> fmt::Result {
        let Status {
            session,
            stream,
            term_id,
            term_offset,
            window,
            receiver,
        } = self.0;
        write!(
            f,
            "session={session} stream={stream} term={term_id} offset={term_offset} window={window} receiver={receiver}"
        )
    }
}

#[derive(Clone, Copy)]
struct SetupFields(Setup);

impl fmt::Display for SetupFields {
    ghost output = { λ fields. Some (setup_text (setup_of fields.0)) };

    fn fmt<W: fmt::Write>(&self, f: &mut fmt::Formatter<W>) -> fmt::Result {
        let Setup {
            session,
            stream,
            initial_term_id,
            active_term_id,
            ..
        } = self.0;
        let lengths = SetupLengths(self.0);
        write!(
            f,
            "session={session} stream={stream} initial={initial_term_id} active={active_term_id} {lengths}"
        )
    }
}

#[derive(Clone, Copy)]
struct SetupLengths(Setup);

impl fmt::Display for SetupLengths {
    ghost output = { λ fields. Some (setup_lengths_text (setup_of fields.0)) };

    fn fmt<W: fmt::Write>(&self, f: &mut fmt::Formatter<W>) -> fmt::Result {
        let Setup {
            term_offset,
            term_length,
            mtu,
            ttl,
            ..
        } = self.0;
        write!(
            f,
            "offset={term_offset} term-length={term_length} mtu={mtu} ttl={ttl}"
        )
    }
}
