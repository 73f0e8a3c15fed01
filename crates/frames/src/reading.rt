ghost use Rattle.std.specs.Prelude.{◌≡◌, ◌≤◌, ◌<◌, ◌+◌, ◌%◌, ℕ, Bool, length, ◌||◌, ◌==◌, IfOk, IsOkAnd};
ghost use Rattle.std.specs.List.{list_all};
ghost use Rattle.std.specs.Result.{result_err};
ghost use Rattle.theory.specs.Position.{aligned};
ghost use Rattle.theory.specs.Wire.{Wire};
ghost use Rattle.frames.specs.Fronts.{FrontSpells};
ghost use Rattle.frames.specs.Frames.{wire, header_of, nak_of, status_of, setup_of};
ghost use Rattle.frames.specs.Fields as field;
ghost use Rattle.frames.specs.Order.{first_fault, is_data_flags};
ghost use Rattle.frames.specs.Reading as list;
ghost use Rattle.frames.specs.Reading.{ReturnsReading};

use crate::fault::FrameError;
use crate::fields::{i32_at, i64_at, u16_at, u32_at};
use crate::frame::{BEGIN, END, Frame, Header, Nak, Setup, Status, UNFRAGMENTED};

/// What every frame begins with.
const FRONT: usize = 8;
/// The header of a DATA frame, a padding and a heartbeat.
pub(crate) const HEADER: usize = 32;

/// The bytes of a negative acknowledgement.
pub const NAK_LENGTH: usize = 28;

/// The bytes of a status message.
pub const STATUS_LENGTH: usize = 36;

/// The bytes of a SETUP.
pub const SETUP_LENGTH: usize = 40;

/// The bytes of the greatest term.
const GREATEST_TERM: u32 = 16_777_216;
/// The greatest frame length of a DATA frame.
const GREATEST_DATA: u32 = 65_504;

/// The frame at the front of the bytes, and how many of them it takes; or the first fault.
pub fn read_frame(bytes: &[u8]) -> Result<(Frame<'_>, usize), FrameError>
    // What is read is spelled by the bytes that it took.
    ensures found { IfOk result (λ found. FrontSpells bytes.now (wire found.0) found.1) }
    // What a front of the bytes spells is read.
    ensures only { (w : Wire) (n : ℕ) → FrontSpells bytes.now w n → IsOkAnd result (λ found. (wire found.0 ≡ w) × (found.1 ≡ n)) }
    // Which fault it is: the first one that the tests find.
    ensures fault { result_err result ≡ first_fault bytes.now }
{
    read(bytes)
}

#[tactic(auto, unfolding(crate::specs::Reading::reading))]
fn read(bytes: &[u8]) -> Result<(Frame<'_>, usize), FrameError>
    ensures { ReturnsReading result (list.reading bytes.now) }
{
    if bytes.len() < FRONT {
        return Err(FrameError::Short);
    }
    if bytes[4] != 0 {
        return Err(FrameError::Version);
    }
    read_kind(bytes, u16_at(bytes, 6))
}

#[tactic(auto, unfolding(crate::specs::Reading::kind_at))]
fn read_kind(bytes: &[u8], kind: u16) -> Result<(Frame<'_>, usize), FrameError>
    requires { 8 ≤ length bytes.now }
    ensures { ReturnsReading result (list.kind_at bytes.now kind) }
{
    match kind {
        0 => read_pad(bytes),
        1 => read_data_or_heartbeat(bytes),
        2 => read_nak(bytes),
        3 => read_status(bytes),
        5 => read_setup(bytes),
        _ => Err(FrameError::Kind),
    }
}

#[tactic(auto, unfolding(crate::specs::Reading::pad_at))]
fn read_pad(bytes: &[u8]) -> Result<(Frame<'_>, usize), FrameError>
    requires { 8 ≤ length bytes.now }
    ensures { ReturnsReading result (list.pad_at bytes.now) }
{
    if bytes.len() < HEADER {
        return Err(FrameError::Short);
    }
    let frame_length = u32_at(bytes, 0);
    if frame_length < 32 || frame_length > GREATEST_TERM {
        return Err(FrameError::Length);
    }
    if bytes[5] != UNFRAGMENTED {
        return Err(FrameError::Flags);
    }
    let header = header_at(bytes);
    if !header.term_offset.is_multiple_of(32) {
        return Err(FrameError::Alignment);
    }
    if header.term_offset > GREATEST_TERM - align32(frame_length) {
        return Err(FrameError::Range);
    }
    Ok((
        Frame::Pad {
            header,
            frame_length,
        },
        HEADER,
    ))
}

#[tactic(auto, unfolding(crate::specs::Reading::data_or_heartbeat_at))]
fn read_data_or_heartbeat(bytes: &[u8]) -> Result<(Frame<'_>, usize), FrameError>
    requires { 8 ≤ length bytes.now }
    ensures { ReturnsReading result (list.data_or_heartbeat_at bytes.now) }
{
    if bytes.len() < HEADER {
        return Err(FrameError::Short);
    }
    let frame_length = u32_at(bytes, 0);
    if frame_length == 0 {
        return read_heartbeat(bytes);
    }
    if frame_length < 32 || frame_length > GREATEST_DATA {
        return Err(FrameError::Length);
    }
    read_data(bytes, frame_length)
}

#[tactic(auto, unfolding(crate::specs::Reading::heartbeat_at))]
fn read_heartbeat(bytes: &[u8]) -> Result<(Frame<'_>, usize), FrameError>
    requires { 32 ≤ length bytes.now }
    ensures { ReturnsReading result (list.heartbeat_at bytes.now) }
{
    if bytes[5] != UNFRAGMENTED {
        return Err(FrameError::Flags);
    }
    let header = header_at(bytes);
    if !header.term_offset.is_multiple_of(32) {
        return Err(FrameError::Alignment);
    }
    if header.term_offset > GREATEST_TERM {
        return Err(FrameError::Range);
    }
    Ok((Frame::Heartbeat { header }, HEADER))
}

#[tactic(auto, unfolding(crate::specs::Reading::data_at))]
fn read_data(bytes: &[u8], frame_length: u32) -> Result<(Frame<'_>, usize), FrameError>
    requires header { 32 ≤ length bytes.now }
    requires least { 32 ≤ frame_length }
    requires greatest { frame_length ≤ 65504 }
    ensures { ReturnsReading result (list.data_at bytes.now frame_length) }
{
    let flags = bytes[5];
    if !is_data_flags(flags) {
        return Err(FrameError::Flags);
    }
    let covered = align32(frame_length);
    let size = covered as usize;
    if bytes.len() < size {
        return Err(FrameError::Short);
    }
    let end = frame_length as usize;
    let header = header_at(bytes);
    if !header.term_offset.is_multiple_of(32) {
        return Err(FrameError::Alignment);
    }
    if !is_zero(&bytes[end..size]) {
        return Err(FrameError::Alignment);
    }
    if header.term_offset > GREATEST_TERM - covered {
        return Err(FrameError::Range);
    }
    let payload = &bytes[HEADER..end];
    Ok((
        Frame::Data {
            header,
            flags,
            payload,
        },
        size,
    ))
}

#[tactic(auto, unfolding(crate::specs::Reading::nak_at))]
fn read_nak(bytes: &[u8]) -> Result<(Frame<'_>, usize), FrameError>
    requires { 8 ≤ length bytes.now }
    ensures { ReturnsReading result (list.nak_at bytes.now) }
{
    if bytes.len() < NAK_LENGTH {
        return Err(FrameError::Short);
    }
    if u32_at(bytes, 0) != 28 {
        return Err(FrameError::Length);
    }
    if bytes[5] != 0 {
        return Err(FrameError::Flags);
    }
    Ok((Frame::Nak(nak_at(bytes)), NAK_LENGTH))
}

#[tactic(auto, unfolding(crate::specs::Reading::status_at))]
fn read_status(bytes: &[u8]) -> Result<(Frame<'_>, usize), FrameError>
    requires { 8 ≤ length bytes.now }
    ensures { ReturnsReading result (list.status_at bytes.now) }
{
    if bytes.len() < STATUS_LENGTH {
        return Err(FrameError::Short);
    }
    if u32_at(bytes, 0) != 36 {
        return Err(FrameError::Length);
    }
    let status = status_at(bytes);
    match bytes[5] {
        0 => Ok((
            Frame::Status {
                asks: false,
                status,
            },
            STATUS_LENGTH,
        )),
        0x80 => Ok((Frame::Status { asks: true, status }, STATUS_LENGTH)),
        _ => Err(FrameError::Flags),
    }
}

#[tactic(auto, unfolding(crate::specs::Reading::setup_at))]
fn read_setup(bytes: &[u8]) -> Result<(Frame<'_>, usize), FrameError>
    requires { 8 ≤ length bytes.now }
    ensures { ReturnsReading result (list.setup_at bytes.now) }
{
    if bytes.len() < SETUP_LENGTH {
        return Err(FrameError::Short);
    }
    if u32_at(bytes, 0) != 40 {
        return Err(FrameError::Length);
    }
    if bytes[5] != 0 {
        return Err(FrameError::Flags);
    }
    Ok((Frame::Setup(setup_at(bytes)), SETUP_LENGTH))
}

#[tactic(auto, unfolding(crate::specs::Reading::header_at))]
pub(crate) fn header_at(bytes: &[u8]) -> Header
    requires { 32 ≤ length bytes.now }
    ensures offset { result.term_offset ≡ field.u32_at bytes.now 8 }
    ensures fields { header_of result ≡ list.header_at bytes.now }
{
    Header {
        term_offset: u32_at(bytes, 8),
        session: i32_at(bytes, 12),
        stream: i32_at(bytes, 16),
        term_id: i32_at(bytes, 20),
        reserved: i64_at(bytes, 24),
    }
}

#[tactic(auto, unfolding(crate::specs::Reading::nak_fields))]
fn nak_at(bytes: &[u8]) -> Nak
    requires { 28 ≤ length bytes.now }
    ensures { nak_of result ≡ list.nak_fields bytes.now }
{
    Nak {
        session: i32_at(bytes, 8),
        stream: i32_at(bytes, 12),
        term_id: i32_at(bytes, 16),
        term_offset: i32_at(bytes, 20),
        length: i32_at(bytes, 24),
    }
}

#[tactic(auto, unfolding(crate::specs::Reading::status_fields))]
fn status_at(bytes: &[u8]) -> Status
    requires { 36 ≤ length bytes.now }
    ensures { status_of result ≡ list.status_fields bytes.now }
{
    Status {
        session: i32_at(bytes, 8),
        stream: i32_at(bytes, 12),
        term_id: i32_at(bytes, 16),
        term_offset: i32_at(bytes, 20),
        window: i32_at(bytes, 24),
        receiver: i64_at(bytes, 28),
    }
}

#[tactic(auto, unfolding(crate::specs::Reading::setup_fields))]
fn setup_at(bytes: &[u8]) -> Setup
    requires { 40 ≤ length bytes.now }
    ensures { setup_of result ≡ list.setup_fields bytes.now }
{
    Setup {
        term_offset: i32_at(bytes, 8),
        session: i32_at(bytes, 12),
        stream: i32_at(bytes, 16),
        initial_term_id: i32_at(bytes, 20),
        active_term_id: i32_at(bytes, 24),
        term_length: i32_at(bytes, 28),
        mtu: i32_at(bytes, 32),
        ttl: i32_at(bytes, 36),
    }
}

fn is_data_flags(flags: u8) -> bool
    ensures { result ≡ is_data_flags flags }
{
    matches!(flags, 0 | END | BEGIN | UNFRAGMENTED)
}

fn is_zero(bytes: &[u8]) -> bool
    ensures { result ≡ list_all (λ b. b == 0) bytes.now }
{
    bytes.iter().all(|byte| *byte == 0)
}

/// The least multiple of 32 that is at least `length`.
pub(crate) fn align32(length: u32) -> u32
    requires { length ≤ 16777216 }
    ensures value { result ≡ aligned length }
    ensures bound { result ≤ 16777216 }
{
    length.next_multiple_of(32)
}
