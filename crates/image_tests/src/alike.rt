ghost use Rattle.std.specs.Prelude.{◌<◌};

use crate::map_image::{DATA, Kept, MapImage, PAD, TERM};
use crate::parts::Parts;
use block::Block;
use frames::{Frame, read_frame};
use image::{ImageError, Insert};
use position::{FrameKind, Geometry, GeometryError, Identity};
use rand_core::utils::NextWord;
use rand_pcg::Pcg32;
use std::alloc::{AllocError, Global};
use std::test::*;

/// How many images there are.
const IMAGES: u64 = 500;

/// How many lists of frames, heartbeats and reads each of them is given, one after the other.
const LISTS: u32 = 20;

/// How long each of them is.
const STEPS: u32 = 12;

/// A number below a bound.
fn below(draws: &mut Pcg32, bound: u32) -> u32
    requires { 0 < bound }
    ensures { result < bound }
{
    draws.next_word() % bound
}

/// The bytes of a frame of this length, header counted: a whole message with one byte over and over, or a padding.
fn spelled(alloc: Global, kind: FrameKind, length: u32, byte: u8) -> Result<Vec<u8>, AllocError> {
    let mut bytes = Vec::new(alloc);
    bytes.extend_from_slice(&length.to_le_bytes())?;
    bytes.extend_from_slice(&[0, 0xc0, if kind == DATA { 1 } else { 0 }, 0])?;
    bytes.resize(32, 0)?;
    if kind == DATA {
        bytes.resize(length.max(32) as usize, byte)?;
        let rest = (32 - bytes.len() % 32) % 32;
        bytes.resize(bytes.len().saturating_add(rest), 0)?;
    }
    Ok(bytes)
}

/// What becomes of such a frame, whose payload bytes are all the same. There is none where it can't be had.
fn filled(
    alloc: Global,
    image: &mut Parts,
    kind: FrameKind,
    position: i64,
    length: u32,
    byte: u8,
) -> Option<Insert> {
    let bytes = spelled(alloc, kind, length, byte).ok()?;
    let (frame, _) = read_frame(&bytes).ok()?;
    match frame {
        Frame::Data { .. } | Frame::Pad { .. } if position.rem_euclid(32) == 0 => {
            Some(image.insert(position, &frame))
        }
        _ => None,
    }
}

/// A position near the least consumer, most often above it.
fn draw_position(draws: &mut Pcg32, map: &MapImage) -> i64 {
    let from = if below(draws, 2) == 0 {
        map.least()
    } else {
        map.rebuilt()
    };
    let units = if below(draws, 4) == 0 {
        i64::from(below(draws, 1200)).wrapping_sub(64)
    } else {
        i64::from(below(draws, 12))
    };
    from.wrapping_add(units.wrapping_mul(32))
}

/// A frame: most are short, and a padding goes to the end of its term.
fn draw_frame(draws: &mut Pcg32, position: i64) -> Kept {
    let byte = (draws.next_word() >> 24) as u8;
    if below(draws, 8) == 0 {
        let rest = TERM.wrapping_sub(position.rem_euclid(TERM));
        return Kept {
            kind: PAD,
            length: u32::try_from(rest).unwrap_or(0),
            byte: 0,
        };
    }
    let most = if below(draws, 8) == 0 { 4096 } else { 200 };
    Kept {
        kind: DATA,
        length: below(draws, most).wrapping_add(32),
        byte,
    }
}

/// Gives both a frame. Whether they answer alike.
fn give(
    alloc: Global,
    draws: &mut Pcg32,
    image: &mut Parts,
    map: &mut MapImage,
) -> Result<bool, Fail> {
    let position = draw_position(draws, map);
    let kept = draw_frame(draws, position);
    let answer = filled(alloc, image, kept.kind, position, kept.length, kept.byte);
    Ok(answer == Some(map.insert(position, kept)?))
}

/// Gives both a heartbeat. Whether they answer alike.
fn beat(draws: &mut Pcg32, image: &mut Parts, map: &mut MapImage) -> bool {
    let position = draw_position(draws, map);
    position.rem_euclid(32) == 0 && image.heartbeat(position) == map.heartbeat(position)
}

/// Reads the frame at a consumer's position from both, and moves past it. Whether they answer alike.
fn pass(image: &mut Parts, map: &mut MapImage, consumer: usize, block: &mut Block) -> bool {
    let head = image.pass(consumer, block);
    match map.pass(consumer) {
        None => head.is_none(),
        Some((start, kept)) => {
            let size = if kept.kind == DATA {
                kept.length.saturating_sub(32) as usize
            } else {
                0
            };
            let mut payload = block.bytes().iter().take(size);
            head == Some(kept.head(start)) && payload.all(|byte| *byte == kept.byte)
        }
    }
}

/// Whether both stand alike, with the same first gap.
fn stand(image: &mut Parts, map: &MapImage) -> bool {
    let (least, rebuilt, high, gap) = image.stand();
    least.cast_signed() == map.least()
        && rebuilt.cast_signed() == map.rebuilt()
        && high.cast_signed() == map.high()
        && gap == map.first_gap()
}

/// One step of a list: a frame, a heartbeat or a read. Whether both answer alike, and stand alike then.
fn step(
    alloc: Global,
    draws: &mut Pcg32,
    image: &mut Parts,
    map: &mut MapImage,
    block: &mut Block,
) -> Result<bool, Fail> {
    let alike = match below(draws, 8) {
        0 => beat(draws, image, map),
        1..=3 => {
            let consumer = below(draws, 2) as usize % image.consumers().max(1);
            pass(image, map, consumer, block)
        }
        _ => give(alloc, draws, image, map)?,
    };
    Ok(alike && stand(image, map))
}

/// Gives both all lists. Whether they always answer alike.
fn stay_alike(
    alloc: Global,
    draws: &mut Pcg32,
    image: &mut Parts,
    map: &mut MapImage,
    block: &mut Block,
) -> Result<bool, Fail> {
    let mut alike = true;
    for _ in 0..LISTS * STEPS {
        alike &= step(alloc, draws, image, map, block)?;
    }
    Ok(alike)
}

/// Opens both by these draws, and gives them all lists. Whether they always answer alike.
fn are_alike(alloc: Global, draws: &mut Pcg32, block: &mut Block) -> Result<bool, Fail> {
    let geometry = Geometry::new(65_536, 1408, 7)?;
    let join = 32 * u64::from(below(draws, 8192));
    let window = 1408 + 32 * below(draws, 981);
    let consumers = 1 + below(draws, 2) as usize;
    let mut map = MapImage::open(alloc, join.cast_signed(), i64::from(window), consumers)?;
    let identity = Identity::new(geometry, 1, 1001);
    let mut image = Parts::open(alloc, identity, join, window, consumers)?;
    stay_alike(alloc, draws, &mut image, &mut map, block)
}

/// An image and one by a map give the same answers to ten thousand lists, from any join on, also round the three terms.
#[test]
fn alike(rt: HostRuntime) -> Result<(), Fail> {
    let mut block = Block::new(rt.alloc(), 65_472)?;
    for number in 0..IMAGES {
        assert!(rt; are_alike(rt.alloc(), &mut Pcg32::new(number, 0), &mut block)?);
    }
    Ok(())
}

/// Why an image isn't opened.
fn refusal(
    alloc: Global,
    join: u64,
    window: u32,
    consumers: usize,
) -> Result<Option<ImageError>, GeometryError> {
    let geometry = Geometry::new(65_536, 1408, 7)?;
    let identity = Identity::new(geometry, 1, 1001);
    Ok(image::open(alloc, identity, join, window, consumers).err())
}

/// Joins, windows and numbers of consumers, and what is wrong with them.
#[test]
fn openings(rt: HostRuntime) -> Result<(), Fail> {
    for (join, window, consumers, fault) in [
        (0, 32_768, 1, None),
        (32, 1408, 8, None),
        (140_737_488_355_328, 2048, 3, None),
        (140_737_488_355_360, 0, 0, Some(ImageError::Join)),
        (16, 32_768, 1, Some(ImageError::Join)),
        (0, 1376, 0, Some(ImageError::Window)),
        (0, 1424, 1, Some(ImageError::Window)),
        (0, 32_800, 1, Some(ImageError::Window)),
        (0, 32_768, 0, Some(ImageError::Consumers)),
        (0, 32_768, 9, Some(ImageError::Consumers)),
    ] {
        assert!(rt; refusal(rt.alloc(), join, window, consumers)? == fault);
    }
    Ok(())
}
