//! A log's table and region, and where a frame lies in both.

ghost use Rattle.std.specs.Prelude.{◌≡◌, ◌+◌, ◌*◌, ◌/◌, ◌%◌, ◌^◌, ◌<◌, ◌≤◌};
ghost use Rattle.region.specs.Identity.{start_address};
ghost use Rattle.log_memory.specs.Places.{head_place, slot_of};
ghost use Rattle.log_memory.specs.Rule.{ring};

use crate::rule::LogMemoryRule;
use crate::view::{LogView, Site};
use atomic_table::Table;
use log_rule::{DATA, LINE};
use position::Geometry;
use region::{Access, Region, RegionStart};
use std::alloc::Global;
use std::sync::Arc;

/// A log's table, with its memory.
pub type OwnTable = Table<Access, LogView, Site, LogMemoryRule, Global>;

/// A log's table, the region where its frames lie, and where that begins; how many units of 32
/// bytes three terms have, and by how many bits a unit's number is shifted to count the terms
/// before it.
#[derive(Drop)]
pub struct LogMemory {
    pub table: OwnTable,
    pub region: Arc<Region>,
    pub start: RegionStart,
    pub(crate) units: u64,
    pub(crate) shift: u32,
    ghost lies: { table.shared.key.region.identity ≡ region.value.identity },
    ghost starts: { start.address ≡ start_address region.value.identity },
    ghost units_is: { units ≡ ring table.shared.key },
    ghost few: { units ≤ 2 ^ 40 },
    ghost terms: { units ≡ 3 * 2 ^ shift },
    ghost shifts: { shift < 32 },
    ghost wide: { table.shared.table_id.words ≡ 208 + units },
    ghost shelves: { table.shared.table_id.slots ≡ 8 * units },
}

/// By how many bits the number of a unit is shifted to count the terms before it.
pub(crate) fn shift_of(geometry: &Geometry) -> u32
    ensures power { 32 * 2 ^ result ≡ geometry.now.term_length }
    ensures low { result < 32 }
{
    (geometry.term_length() / 32).trailing_zeros()
}

impl LogMemory {
    /// Where the unit at a position lies among those of three terms. It takes no division but by
    /// three.
    #[inline(always)]
    fn place(&self, position: u64) -> usize
        ensures is { result ≡ position / 32 % ring self.now.table.shared.key }
        ensures low { result < ring self.now.table.shared.key }
    {
        let _ = &self.table;
        let unit = position / 32;
        (unit - (unit >> self.shift) / 3 * self.units) as usize
    }

    /// The word of the unit at a position.
    #[inline(always)]
    pub fn head(&self, position: u64) -> usize
        ensures is { result ≡ head_place (ring self.now.table.shared.key) position }
        ensures inside { result < self.now.table.shared.table_id.words }
    {
        let _ = &self.table;
        208 + self.place(position)
    }

    /// The first slot of the unit at a position.
    #[inline(always)]
    pub fn slot(&self, position: u64) -> usize
        ensures is { result ≡ slot_of (ring self.now.table.shared.key) position 0 }
        ensures first { result % 8 ≡ 0 }
        ensures inside { result + 8 ≤ 8 * ring self.now.table.shared.key }
        ensures low { result < 2 ^ 44 }
    {
        let _ = &self.table;
        8 * self.place(position)
    }

    /// Where the bytes of the unit at a position begin in the region.
    #[inline(always)]
    pub fn byte(&self, position: u64) -> usize
        ensures is { result ≡ 4 * slot_of (ring self.now.table.shared.key) position 0 }
        ensures low { result < 2 ^ 46 }
    {
        let _ = &self.table;
        32 * self.place(position)
    }

    /// A word of the table, for tests, which have the log to themselves then: the words of the
    /// units, the limit, the active count, the three raw tails, the eight consumer positions.
    /// Nothing is promised of its value.
    pub fn peek(&mut self, index: usize) -> u64
        requires { index < ring self.old.table.shared.key + 13 }
        ensures { self.new ≡ self.old }
    {
        let words = self.units as usize;
        let place = if index < words {
            index + DATA
        } else {
            (index - words) * LINE
        };
        self.table.shared.peek(place)
    }
}
