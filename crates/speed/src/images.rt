//! How long it takes for a frame to be inserted into an image and read.

ghost use Rattle.std.specs.Prelude.{◌≡◌, ◌*◌, ◌/◌, ◌-◌, ◌^◌, ◌+◌, ◌<◌, ◌≤◌, length, max, min, IfOk};
ghost use Rattle.std.specs.Duration.{as_nanos};
ghost use Rattle.theory.specs.Wire.{IsFrame};
ghost use Rattle.frames.specs.Frames.{wire};
ghost use Rattle.image.specs.Stored.{IsOfStream};
ghost use Rattle.image.specs.Handles.{IsReaderOf};
ghost use Rattle.image.specs.Rebuilding.{IsInserterOf};

use block::Block;
use frames::{Frame, Header};
use image::{Image, ImageError, ImageReader, Insert, Inserter, advance, deal, insert, open, read};
use position::{Geometry, GeometryError, Identity, align32};
use std::alloc::{AllocError, Global};
use std::time::{Clock, Duration, Instant};
use thiserror::Error;

/// Why nothing was measured.
#[derive(Debug, Drop, Error)]
pub enum ImageSpeedError {
    #[error("no such shape: {0}")]
    Geometry(#[from] GeometryError),
    #[error("the image wasn't opened: {0}")]
    Image(#[from] ImageError),
    #[error("memory was refused: {0}")]
    Memory(#[from] AllocError),
    #[error("the clock can't be read")]
    Clock,
}

/// A sum over what was read, and how many frames were stored.
#[derive(Clone, Copy)]
pub struct Played {
    pub sum: u64,
    pub stored: u64,
}

/// An image with its inserter and its one reader.
#[derive(Drop)]
struct ImageParts {
    image: Image,
    inserter: Inserter,
    reader: ImageReader,
    ghost inserts: { IsInserterOf image inserter },
    ghost reads: { IsReaderOf image reader },
}

/// Gives an image a frame, reads one, and counts both.
fn pass(
    parts: &mut ImageParts,
    block: &mut Block,
    position: u64,
    frame: &Frame<'_>,
    played: &mut Played,
)
    requires frame { IsFrame (wire frame.now) }
    requires of_stream { IsOfStream frame.now }
    requires room { 65472 ≤ length block.old }
    ensures { length block.new ≡ length block.old }
{
    if !position.is_multiple_of(32) || position > i64::MAX as u64 {
        return;
    }
    if insert(&parts.image, &mut parts.inserter, position as i64, frame) == Insert::Stored {
        played.stored = played.stored.wrapping_add(1);
    }
    if let Some(head) = read(&parts.image, &mut parts.reader, block) {
        let _ = advance(&parts.image, &mut parts.reader);
        played.sum = played
            .sum
            .wrapping_add(u64::from(head.frame_length))
            .wrapping_add(u64::from(block.bytes()[5]));
    }
}

/// The fields of each header. An image doesn't look at them.
fn header() -> Header
    ensures { result.term_offset ≡ 0 }
{
    Header {
        term_offset: 0,
        session: 7,
        stream: 1001,
        term_id: 7,
        reserved: 0,
    }
}

/// Gives an image that begins at 0, with terms of 65,536 bytes, so many data frames with this payload, and reads each at once.
fn pass_all(parts: &mut ImageParts, block: &mut Block, payload: &[u8], frames: u32) -> Played
    requires payload { length payload.now ≤ 65472 }
    requires room { 65472 ≤ length block.old }
{
    let term = 65_536;
    let covered = u64::from(align32(payload.len() as u32 + 32));
    let data = Frame::Data {
        header: header(),
        flags: 0xc0,
        payload,
    };
    let mut played = Played { sum: 0, stored: 0 };
    let mut position: u64 = 0;
    for _ in 0..frames {
        let rest = term - position % term;
        if (32..covered).contains(&rest) {
            let padding = Frame::Pad {
                header: header(),
                frame_length: rest as u32,
            };
            pass(parts, block, position, &padding, &mut played);
            position = position.wrapping_add(rest);
        }
        pass(parts, block, position, &data, &mut played);
        position = position.wrapping_add(covered);
    }
    played
}

/// What was measured with frames that are read at once.
#[derive(Clone, Copy)]
pub struct ImageFigures {
    /// The bytes of each frame, its header too.
    pub length: u64,
    /// For each of the data frames, in tenths of a nanosecond, rounded down.
    pub tenths: u64,
    pub played: Played,
}

/// A duration's tenths of a nanosecond for each of so many frames, rounded down. No frames at all are taken for one.
fn tenths_each(taken: Duration, frames: u32) -> u64
    ensures { result ≡ min (as_nanos taken * 10 / max frames 1) (2 ^ 64 - 1) }
{
    let each = taken.as_nanos() * 10 / u128::from(frames.max(1));
    each.min(u128::from(u64::MAX)) as u64
}

/// An image with one consumer.
fn open_parts(alloc: Global, geometry: Geometry) -> Result<ImageParts, ImageSpeedError> {
    let identity = Identity::new(geometry, 7, 1001);
    let (image, mut inserter) = open(alloc, identity, 0, geometry.term_length() / 2, 1)?;
    let reader = deal(&image, &mut inserter, 0);
    Ok(ImageParts {
        image,
        inserter,
        reader,
    })
}

/// Gives a fresh image so many frames with this payload, and reads each at once.
pub fn measure_image<R: Clock>(
    rt: &R,
    alloc: Global,
    payload: &[u8],
    frames: u32,
) -> Result<ImageFigures, ImageSpeedError>
    requires { length payload.now ≤ 65472 }
    ensures { IfOk result (λ figures. figures.length ≡ length payload.now + 32) }
{
    let geometry = Geometry::new(65_536, 1408, 7)?;
    let mut parts = open_parts(alloc, geometry)?;
    let mut block = Block::new(alloc, 65_536)?;
    let Ok(began) = Instant::now(rt) else {
        return Err(ImageSpeedError::Clock);
    };
    let played = pass_all(&mut parts, &mut block, payload, frames);
    let Ok(ended) = Instant::now(rt) else {
        return Err(ImageSpeedError::Clock);
    };
    Ok(ImageFigures {
        length: payload.len() as u64 + 32,
        tenths: tenths_each(ended.duration_since(began), frames),
        played,
    })
}
