ghost use Rattle.std.specs.Prelude.{◌≡◌, ◌≤◌, ◌<◌, ◌+◌, ◌++◌, ℕ, length, take, drop};
ghost use Rattle.theory.specs.Wire.{spelling, front, IsFrame};
ghost use Rattle.theory.specs.Wire as meant;
ghost use Rattle.frames.specs.Frames.{wire, header_of, nak_of, status_of, setup_of, asks_of};

use crate::fields::{put_i32, put_i64, put_u16, put_u32};
use crate::frame::{Frame, Header, Nak, Setup, Status, UNFRAGMENTED};

/// Writes the frame into the front of the buffer, and leaves the rest as it was. The result is the number of bytes
/// written.
pub fn write_frame(frame: &Frame<'_>, buffer: &mut [u8]) -> usize
    requires frame { IsFrame (wire frame.now) }
    requires room { length (spelling (wire frame.now)) ≤ length buffer.old }
    ensures written { buffer.new ≡ spelling (wire frame.now) ++ drop (length (spelling (wire frame.now))) buffer.old }
    ensures size { result ≡ length (spelling (wire frame.now)) }
{
    match *frame {
        Frame::Data {
            header,
            flags,
            payload,
        } => write_data(&header, flags, payload, buffer),
        Frame::Pad {
            header,
            frame_length,
        } => put_first(
            buffer,
            &header_bytes(frame_length, UNFRAGMENTED, 0, &header),
        ),
        Frame::Heartbeat { header } => put_first(
            buffer,
            &header_bytes(0, UNFRAGMENTED, 1, &header),
        ),
        Frame::Nak(nak) => put_first(buffer, &nak_bytes(&nak)),
        Frame::Status { asks, status } => put_first(buffer, &status_bytes(asks, &status)),
        Frame::Setup(setup) => put_first(buffer, &setup_bytes(&setup)),
    }
}

/// The header, the payload, and zeros to the next multiple of 32.
fn write_data(header: &Header, flags: u8, payload: &[u8], buffer: &mut [u8]) -> usize
    requires payload { 32 + length payload.now ≤ 65504 }
    requires room { length (spelling (meant.DATA (header_of header.now) flags payload.now)) ≤ length buffer.old }
    ensures written { let bytes = spelling (meant.DATA (header_of header.now) flags payload.now) in buffer.new ≡ bytes ++ drop (length bytes) buffer.old }
    ensures size { result ≡ length (spelling (meant.DATA (header_of header.now) flags payload.now)) }
{
    let end = 32 + payload.len();
    let size = end.next_multiple_of(32);
    put(buffer, 0, &header_bytes(end as u32, flags, 1, header));
    put(buffer, 32, payload);
    put(buffer, end, &[0; 32][..size - end]);
    size
}

fn put_first(buffer: &mut [u8], bytes: &[u8]) -> usize
    requires { length bytes.now ≤ length buffer.old }
    ensures written { buffer.new ≡ bytes.now ++ drop (length bytes.now) buffer.old }
    ensures size { result ≡ length bytes.now }
{
    put(buffer, 0, bytes);
    bytes.len()
}

fn put(buffer: &mut [u8], place: usize, bytes: &[u8])
    requires { place + length bytes.now ≤ length buffer.old }
    ensures { buffer.new ≡ take place buffer.old ++ (bytes.now ++ drop (place + length bytes.now) buffer.old) }
{
    buffer[place..place + bytes.len()].copy_from_slice(bytes);
}

fn put_front(bytes: &mut [u8], frame_length: u32, flags: u8, kind: u16)
    requires { 8 ≤ length bytes.old }
    ensures { bytes.new ≡ front frame_length flags kind ++ drop 8 bytes.old }
{
    put_u32(bytes, 0, frame_length);
    bytes[4] = 0;
    bytes[5] = flags;
    put_u16(bytes, 6, kind);
}

fn header_bytes(frame_length: u32, flags: u8, kind: u16, header: &Header) -> [u8; 32]
    ensures { result ≡ front frame_length flags kind ++ meant.header_bytes (header_of header.now) }
{
    let mut bytes = [0; 32];
    put_front(&mut bytes, frame_length, flags, kind);
    put_u32(&mut bytes, 8, header.term_offset);
    put_i32(&mut bytes, 12, header.session);
    put_i32(&mut bytes, 16, header.stream);
    put_i32(&mut bytes, 20, header.term_id);
    put_i64(&mut bytes, 24, header.reserved);
    bytes
}

fn nak_bytes(nak: &Nak) -> [u8; 28]
    ensures { result ≡ spelling (meant.NAK (nak_of nak.now)) }
{
    let mut bytes = [0; 28];
    put_front(&mut bytes, 28, 0, 2);
    put_i32(&mut bytes, 8, nak.session);
    put_i32(&mut bytes, 12, nak.stream);
    put_i32(&mut bytes, 16, nak.term_id);
    put_i32(&mut bytes, 20, nak.term_offset);
    put_i32(&mut bytes, 24, nak.length);
    bytes
}

fn status_bytes(asks: bool, status: &Status) -> [u8; 36]
    ensures { result ≡ spelling (meant.SM (asks_of asks) (status_of status.now)) }
{
    let mut bytes = [0; 36];
    put_front(&mut bytes, 36, asks_flags(asks), 3);
    put_i32(&mut bytes, 8, status.session);
    put_i32(&mut bytes, 12, status.stream);
    put_i32(&mut bytes, 16, status.term_id);
    put_i32(&mut bytes, 20, status.term_offset);
    put_i32(&mut bytes, 24, status.window);
    put_i64(&mut bytes, 28, status.receiver);
    bytes
}

fn setup_bytes(setup: &Setup) -> [u8; 40]
    ensures { result ≡ spelling (meant.SETUP (setup_of setup.now)) }
{
    let mut bytes = [0; 40];
    put_front(&mut bytes, 40, 0, 5);
    put_i32(&mut bytes, 8, setup.term_offset);
    put_i32(&mut bytes, 12, setup.session);
    put_i32(&mut bytes, 16, setup.stream);
    put_i32(&mut bytes, 20, setup.initial_term_id);
    put_i32(&mut bytes, 24, setup.active_term_id);
    put_i32(&mut bytes, 28, setup.term_length);
    put_i32(&mut bytes, 32, setup.mtu);
    put_i32(&mut bytes, 36, setup.ttl);
    bytes
}

fn asks_flags(asks: bool) -> u8
    ensures { result ≡ asks_of asks }
{
    if asks { 0x80 } else { 0 }
}
