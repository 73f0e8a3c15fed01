//! What became of a datagram, as numbers.

ghost use Rattle.std.specs.Prelude.{◌≡◌};
ghost use Rattle.cores.specs.Numbers as number;

use frames::FrameError;
use image::Insert;
use receiver::{Outcome, SetupError};
use sender::{NakResult, SenderAnswer};

fn insert_number(answer: Insert) -> i32
    ensures { result ≡ number.of_insert answer }
{
    match answer {
        Insert::Stored => 1,
        Insert::Duplicate => 2,
        Insert::Below => 3,
        Insert::OverWindow => 4,
        Insert::Overlap => 5,
        Insert::CrossesTerm => 6,
    }
}

fn setup_number(fault: SetupError) -> i32
    ensures { result ≡ number.of_setup fault }
{
    match fault {
        SetupError::Geometry => -1,
        SetupError::Position => -2,
        SetupError::Window => -3,
    }
}

fn frame_number(fault: FrameError) -> i32
    ensures { result ≡ number.of_frame fault }
{
    match fault {
        FrameError::Short => -11,
        FrameError::Version => -12,
        FrameError::Kind => -13,
        FrameError::Length => -14,
        FrameError::Flags => -15,
        FrameError::Alignment => -16,
        FrameError::Range => -17,
        FrameError::Datagram => -18,
    }
}

fn nak_number(answer: NakResult) -> i32
    ensures { result ≡ number.of_nak answer }
{
    match answer {
        NakResult::Taken => 21,
        NakResult::Lingering => 22,
        NakResult::Full => 23,
        NakResult::OutOfRange => 24,
        NakResult::NotAFrameStart => 25,
    }
}

/// The number of what became of a frame that a subscriber took.
pub(crate) fn outcome_number(outcome: Outcome) -> i32
    ensures { result ≡ number.of_outcome outcome }
{
    match outcome {
        Outcome::Inserted(answer) => insert_number(answer),
        Outcome::Heartbeat => 10,
        Outcome::Opened(_) => 11,
        Outcome::Kept => 12,
        Outcome::Asked => 13,
        Outcome::Other => 14,
        Outcome::SetupRefused(fault) => setup_number(fault),
        Outcome::Refused(fault) => frame_number(fault),
    }
}

/// The number of what a sender says of a datagram.
pub(crate) fn answer_number(answer: SenderAnswer) -> i32
    ensures { result ≡ number.of_answer answer }
{
    match answer {
        SenderAnswer::Ticked => 0,
        SenderAnswer::Asked => 13,
        SenderAnswer::Other => 14,
        SenderAnswer::Status(_) => 15,
        SenderAnswer::Missed(answer) => nak_number(answer),
        SenderAnswer::Refused(fault) => frame_number(fault),
    }
}
