//! The words of an image, which its inserter and its readers share, and the region where its frames lie.

ghost use Rattle.std.specs.Prelude.{◌≡◌, ◌+◌, ◌*◌, ◌/◌, ◌%◌, ◌^◌, ◌<◌, ◌≤◌};
ghost use Rattle.image_rule.specs.Frames.{byte_place, held_place, image_length, ring, slot_of, start_place};
ghost use Rattle.image_rule.specs.Rule.{IsKey, image_place};
ghost use Rattle.image_rule.specs.Bits.{IsMask};
ghost use Rattle.region.specs.Identity.{start_address};

use atomic_table::Table;
use image_rule::{ImageRule, Key, Site, View};
use position::Identity;
use region::{ReadAccess, Region, RegionStart};
use std::alloc::Global;
use std::marker::Model;
use std::sync::Arc;

/// Where the image's words begin, behind the consumers' positions.
pub(crate) const IMAGE: usize = 128;

/// The words of an image, and the slots with the parts of its frames.
pub(crate) type ImageTable = Table<ReadAccess, View, Site, ImageRule, Global>;

/// The table, what it is told of, the units of its ring, by how many bits a unit's number is shifted to count the terms before it,
/// and the region where the frames lie.
#[derive(Drop)]
pub(crate) struct Words {
    pub(crate) table: ImageTable,
    pub(crate) key: Key,
    pub(crate) units: u64,
    pub(crate) shift: u32,
    pub(crate) region: Arc<Region>,
    pub(crate) start: RegionStart,
    ghost is_of: { table.shared.key.key ≡ key },
    ghost lies: { table.shared.key.region.identity ≡ region.value.identity },
    ghost starts: { start.address ≡ start_address region.value.identity },
    ghost is_key: { IsKey key },
    ghost units_is: { units ≡ ring key },
    ghost few: { units ≤ 2 ^ 40 },
    ghost terms: { units ≡ 3 * 2 ^ shift },
    ghost shifts: { shift < 32 },
    ghost low: { key.join ≤ 2 ^ 56 },
    ghost wide: { table.shared.table_id.words ≡ image_place + image_length units },
    ghost shelves: { table.shared.table_id.slots ≡ 8 * units },
}

impl Words {
    /// Where a unit lies in the ring. It takes no division but by three.
    #[inline(always)]
    pub(crate) fn place(&self, unit: u64) -> usize
        ensures is { result ≡ unit % ring self.now.key }
        ensures low { result < ring self.now.key }
    {
        let _ = &self.table;
        (unit - (unit >> self.shift) / 3 * self.units) as usize
    }

    /// The word of the image with a unit's held bit.
    #[inline(always)]
    pub(crate) fn held_word(&self, unit: u64) -> usize
        ensures is { result ≡ held_place (ring self.now.key) unit }
        ensures low { result < (ring self.now.key) / 64 }
        ensures inside { result < image_length (ring self.now.key) }
    {
        let _ = &self.table;
        self.place(unit) / 64
    }

    /// The word of the image with a unit's start bit.
    #[inline(always)]
    pub(crate) fn start_word(&self, unit: u64) -> usize
        ensures is { result ≡ start_place (ring self.now.key) unit }
        ensures inside { result < image_length (ring self.now.key) }
    {
        let _ = &self.table;
        self.units as usize / 64 + self.place(unit) / 64
    }

    /// The slot with the part of a consumer of the frame that begins at a unit.
    #[inline(always)]
    pub(crate) fn slot(&self, unit: u64, number: u64) -> usize
        requires few { number < 8 }
        ensures is { result ≡ slot_of (ring self.now.key) unit number }
        ensures inside { result < 8 * ring self.now.key }
    {
        let _ = &self.table;
        8 * self.place(unit) + number as usize
    }

    /// Where a unit's bytes begin in the region.
    #[inline(always)]
    pub(crate) fn byte(&self, unit: u64) -> usize
        ensures is { result ≡ byte_place (ring self.now.key) unit }
        ensures inside { result + 32 ≤ 32 * ring self.now.key }
    {
        let _ = &self.table;
        32 * self.place(unit)
    }
}

/// The word whose ones are the bits from `low` on, below `high`.
#[inline(always)]
pub(crate) fn mask(low: u64, high: u64) -> u64
    requires some { low < high }
    requires within { high ≤ 64 }
    ensures { IsMask result low high }
{
    (u64::MAX >> (64 - (high - low))) << low
}

/// An image that threads share: its words stand in a table, its frames lie in a region.
#[derive(Drop)]
pub struct Image {
    pub(crate) words: Words,
}

impl Model for Image {
    ghost use Rattle.image.specs.Handles.{ImageWords};

    ghost Value = { ImageWords };

    ghost view = { λ i. record { of = record { table = i.words.table.shared.table_id; region = i.words.table.shared.key.region; units = i.words.units }; key = i.words.key } };
}

impl Image {
    /// The stream that it rebuilds.
    pub fn identity(&self) -> Identity
        ensures { result ≡ self.now.key.identity }
    {
        self.words.key.identity
    }

    /// The position at which it joins, a multiple of 32.
    pub fn join(&self) -> u64
        ensures { result ≡ 32 * self.now.key.join }
    {
        let _ = &self.words;
        32 * self.words.key.join
    }

    /// How many consumers it has, one to eight.
    pub fn consumers(&self) -> u64
        ensures { result ≡ self.now.key.consumers }
    {
        self.words.key.consumers
    }
}
