//! An image that is tried beside one by a map, with its inserter and its readers in one hand.

ghost use Rattle.std.specs.Prelude.{◌≤◌, length};
ghost use Rattle.std.specs.Option.{ForSome};
ghost use Rattle.theory.specs.Wire.{IsFrame};
ghost use Rattle.frames.specs.Frames.{wire};
ghost use Rattle.image.specs.Handles.{IsReaderOf};
ghost use Rattle.image.specs.Stored.{IsOfStream, IsUnit};
ghost use Rattle.image.specs.Rebuilding.{IsInserterOf};

use block::Block;
use frames::Frame;
use image::{
    Image, ImageError, ImageReader, Insert, Inserter, Steps, advance, deal, first_gap, heartbeat,
    insert, least, open, read,
};
use position::{FrameHead, Gap, Identity};
use std::alloc::Global;

/// The image with its inserter and its readers, of which there are one or two.
#[derive(Drop)]
pub(crate) struct Parts {
    image: Image,
    inserter: Inserter,
    first: ImageReader,
    second: Option<ImageReader>,
    ghost inserts: { IsInserterOf image inserter },
    ghost reads: { IsReaderOf image first },
    ghost second_reads: { ForSome second (λ r. IsReaderOf image r) },
}

/// Reads the frame where a reader stands, and moves past it.
fn read_past(image: &Image, reader: &mut ImageReader, block: &mut Block) -> Option<FrameHead>
    requires fits { IsReaderOf image.now reader.old }
    requires room { 65472 ≤ length block.old }
    ensures { IsReaderOf image.now reader.new }
{
    let head = read(image, reader, block)?;
    let _ = advance(image, reader);
    Some(head)
}

impl Parts {
    /// An image with one or two consumers.
    pub(crate) fn open(
        alloc: Global,
        identity: Identity,
        join: u64,
        window: u32,
        consumers: usize,
    ) -> Result<Parts, ImageError> {
        let (image, mut inserter) = open(alloc, identity, join, window, consumers)?;
        match consumers {
            1 => {
                let first = deal(&image, &mut inserter, 0);
                Ok(Parts {
                    image,
                    inserter,
                    first,
                    second: None,
                })
            }
            2 => {
                let second = deal(&image, &mut inserter, 1);
                let first = deal(&image, &mut inserter, 0);
                Ok(Parts {
                    image,
                    inserter,
                    first,
                    second: Some(second),
                })
            }
            _ => Err(ImageError::Consumers),
        }
    }

    /// Takes a DATA frame or a padding.
    pub(crate) fn insert(&mut self, position: i64, frame: &Frame<'_>) -> Insert
        requires unit { IsUnit position }
        requires frame { IsFrame (wire frame.now) }
        requires of_stream { IsOfStream frame.now }
    {
        insert(&self.image, &mut self.inserter, position, frame)
    }

    /// Takes a sender's position.
    pub(crate) fn heartbeat(&mut self, position: i64) -> bool
        requires { IsUnit position }
    {
        heartbeat(&self.image, &mut self.inserter, position)
    }

    /// How many consumers it has.
    pub(crate) fn consumers(&self) -> usize {
        self.image.consumers() as usize
    }

    /// Reads the frame where a consumer stands, and moves past it.
    pub(crate) fn pass(&mut self, consumer: usize, block: &mut Block) -> Option<FrameHead> {
        if block.len() < 65_472 {
            return None;
        }
        if consumer == 0 {
            return read_past(&self.image, &mut self.first, block);
        }
        match &mut self.second {
            Some(reader) => read_past(&self.image, reader, block),
            None => None,
        }
    }

    /// Where the least consumer stands, the contiguous end, the mark and the first gap.
    pub(crate) fn stand(&mut self) -> (u64, u64, u64, Option<Gap>) {
        let lowest = least(&self.image, &mut self.inserter);
        let gap = first_gap(&self.image, &mut self.inserter, &mut Steps::new());
        let (rebuilt, high_water) = (self.inserter.rebuilt(), self.inserter.high_water());
        (lowest, rebuilt, high_water, gap)
    }
}
