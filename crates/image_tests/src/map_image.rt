//! An image as a map of whole frames, in the simplest form. No contract says what it answers.

use image::Insert;
use position::{FrameHead, FrameKind, Gap};
use std::alloc::{AllocError, Global};
use std::collections::BTreeMap;

pub(crate) const DATA: FrameKind = FrameKind::Data;

pub(crate) const PAD: FrameKind = FrameKind::Pad;

/// The bytes of a term.
pub(crate) const TERM: i64 = 65_536;

/// A frame, of which each payload byte is the same.
#[derive(Clone, Copy)]
pub(crate) struct Kept {
    pub(crate) kind: FrameKind,
    pub(crate) length: u32,
    pub(crate) byte: u8,
}

impl Kept {
    /// What an image tells of it, where it starts there.
    pub(crate) fn head(&self, start: i64) -> FrameHead {
        FrameHead {
            start: start.cast_unsigned(),
            kind: self.kind,
            flags: 0xc0,
            frame_length: self.length,
        }
    }
}

#[derive(Drop)]
pub(crate) struct MapImage {
    window: i64,
    high: i64,
    consumers: Vec<i64>,
    frames: BTreeMap<i64, Kept>,
}

/// The bytes that a frame of this length covers.
fn covered(length: u32) -> i64 {
    i64::from(length)
        .wrapping_add(31)
        .wrapping_div(32)
        .wrapping_mul(32)
}

impl MapImage {
    pub(crate) fn open(
        alloc: Global,
        join: i64,
        window: i64,
        consumers: usize,
    ) -> Result<MapImage, AllocError> {
        Ok(MapImage {
            window,
            high: join,
            consumers: vec![in alloc; join; consumers]?,
            frames: BTreeMap::new(alloc),
        })
    }

    pub(crate) fn least(&self) -> i64 {
        self.consumers.iter().copied().min().unwrap_or(0)
    }

    pub(crate) fn high(&self) -> i64 {
        self.high
    }

    /// The end of the frames that follow each other from the least consumer on.
    pub(crate) fn rebuilt(&self) -> i64 {
        let mut end = self.least();
        for (start, kept) in &self.frames {
            if *start == end {
                end = end.wrapping_add(covered(kept.length));
            }
        }
        end
    }

    /// Whether such a frame starts there.
    fn is_there(&self, position: i64, kept: &Kept) -> bool {
        match self.frames.get(&position) {
            Some(other) => other.kind == kept.kind && other.length == kept.length,
            None => false,
        }
    }

    /// Whether a frame lies between two positions, or a part of one.
    fn is_taken(&self, position: i64, end: i64) -> bool {
        for (start, other) in &self.frames {
            if *start < end && position < start.wrapping_add(covered(other.length)) {
                return true;
            }
        }
        false
    }

    pub(crate) fn insert(&mut self, position: i64, kept: Kept) -> Result<Insert, AllocError> {
        let end = position.wrapping_add(covered(kept.length));
        if position.rem_euclid(TERM).wrapping_add(covered(kept.length)) > TERM {
            return Ok(Insert::CrossesTerm);
        }
        if position < self.least() {
            return Ok(Insert::Below);
        }
        let needed = if kept.kind == DATA {
            end
        } else {
            position.wrapping_add(32)
        };
        if needed > self.least().wrapping_add(self.window) {
            return Ok(Insert::OverWindow);
        }
        if self.is_there(position, &kept) {
            return Ok(Insert::Duplicate);
        }
        if self.is_taken(position, end) {
            return Ok(Insert::Overlap);
        }
        self.frames.insert(position, kept)?;
        self.high = self.high.max(end);
        Ok(Insert::Stored)
    }

    pub(crate) fn heartbeat(&mut self, position: i64) -> bool {
        let accepted = position > self.high && position <= self.least().wrapping_add(49_152);
        if accepted {
            self.high = position;
        }
        accepted
    }

    /// The frame at a consumer's position, and the consumer past it; where there is one.
    pub(crate) fn pass(&mut self, consumer: usize) -> Option<(i64, Kept)> {
        let start = *self.consumers.get(consumer)?;
        let kept = *self.frames.get(&start)?;
        if let Some(place) = self.consumers.get_mut(consumer) {
            *place = start.wrapping_add(covered(kept.length));
        }
        let least = self.least();
        self.frames.retain(|at, _| *at >= least);
        Some((start, kept))
    }

    /// From the rebuilt position to the next frame, the mark or the end of the term.
    pub(crate) fn first_gap(&self) -> Option<Gap> {
        let start = self.rebuilt();
        if start == self.high {
            return None;
        }
        let mut end = self.high.min(
            start
                .wrapping_sub(start.rem_euclid(TERM))
                .wrapping_add(TERM),
        );
        for (at, _) in &self.frames {
            if *at > start {
                end = end.min(*at);
            }
        }
        Some(Gap {
            start: start.cast_unsigned(),
            length: end.wrapping_sub(start).cast_unsigned(),
        })
    }
}
