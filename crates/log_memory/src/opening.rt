//! A log opens: its words, the slots with the room of its region, and the table of both.

ghost use Rattle.std.specs.Prelude.{◌≡◌, ◌+◌, ◌*◌, ◌%◌, ◌^◌, ◌<◌, ◌≤◌, IfOk, length, replicate};
ghost use Rattle.theory.specs.Position.{IsGeometry, max_position};
ghost use Rattle.position.specs.Openings.{IsConsumerCount};
ghost use Rattle.log_memory.specs.Opening.{AreRooms, IsFirstWords, IsLeft, IsOpened, IsUnitOf, StandAt, control_words};
ghost use Rattle.log_memory.specs.Places.{units};

use crate::memory::{LogMemory, shift_of};
use crate::rights::LogSeat;
use crate::view::Site;
use atomic_table::Table;
use log_rule::{CONSUMERS, COUNT, DATA, Key, LINE, packed, place_of};
use position::Geometry;
use region::{Access, Region, WriteAccess};
use std::alloc::{AllocError, Global};
use std::sync::Arc;

/// The units of three terms.
pub fn units_of(geometry: &Geometry) -> usize
    ensures is { result ≡ units geometry.now }
    ensures few { result ≤ 2 ^ 40 }
{
    3 * (geometry.term_length() as usize / 32)
}

/// The words of a log with no consumers yet.
fn first_controls(alloc: Global, key: &Key, units: usize) -> Result<Vec<u64>, AllocError>
    requires geometry { IsGeometry key.now.identity.geometry }
    requires below { key.now.start < max_position key.now.identity.geometry }
    requires few { units ≤ 2 ^ 40 }
    ensures { IfOk result (λ words. words.items
        ≡ control_words key.now.identity key.now.start (208 + units)) }
{
    let geometry = key.identity.geometry();
    let length = u64::from(geometry.term_length());
    let count = (key.start / length) as u32;
    let id = geometry.id_of(count);
    let mut words = vec![in alloc; 0; DATA + units]?;
    words[0] = key.start;
    words[COUNT] = u64::from(count);
    words[place_of(count)] = packed(id, (key.start % length) as u32);
    words[place_of(count + 1)] = packed(id.wrapping_sub(2), 0);
    words[place_of(count + 2)] = packed(id.wrapping_sub(1), 0);
    Ok(words)
}

/// So many consumers stand at a position.
fn begin_consumers(words: &mut Vec<u64>, position: u64, consumers: u64)
    requires few { consumers ≤ 8 }
    requires wide { 208 ≤ length words.old.items }
    ensures { StandAt position words.old.items consumers words.new.items }
{
    for number in 0..consumers {
        words[number as usize * LINE + CONSUMERS] = position;
    }
}

/// The words of a log that opens, unconnected, its limit and its consumers at the start: 208
/// control words, and one for each of so many units.
fn first_words(alloc: Global, key: &Key, units: usize) -> Result<Vec<u64>, AllocError>
    requires geometry { IsGeometry key.now.identity.geometry }
    requires below { key.now.start < max_position key.now.identity.geometry }
    requires few { units ≤ 2 ^ 40 }
    requires count { key.now.consumers ≤ 8 }
    ensures { IfOk result (λ words. IsFirstWords key.now (208 + units) words.items) }
{
    let mut words = first_controls(alloc, key, units)?;
    begin_consumers(&mut words, key.start, key.consumers);
    Ok(words)
}

/// What the next slot has: the first of a unit the right to write it, out of what is left.
fn next_slot(left: WriteAccess, units: usize, slot: usize) -> (Access, WriteAccess)
    requires left { IsLeft units slot left }
    requires inside { slot < 8 * units }
    requires few { units ≤ 2 ^ 40 }
    ensures left { (result.1.identity ≡ left.identity) × IsLeft units (slot + 1) result.1 }
    ensures unit { slot % 8 ≡ 0 → IsUnitOf left.identity slot result.0 }
{
    let _ = units;
    if slot % 8 == 0 {
        let (unit, others) = left.split_at(32);
        return (Access::of_write(unit), others);
    }
    (Access::none(), left)
}

/// The slots of so many units, of which a run of zeros is all memory: the first slot of each has
/// the right to write it.
fn rooms(alloc: Global, memory: WriteAccess, units: usize) -> Result<Vec<Access>, AllocError>
    requires at { memory.at ≡ 0 }
    requires zeros { memory.items ≡ replicate (32 * units) 0 }
    requires few { units ≤ 2 ^ 40 }
    ensures { IfOk result (λ slots. AreRooms memory.identity units slots.items) }
{
    let mut left = memory;
    let mut slots = Vec::new(alloc);
    for slot in 0..8 * units {
        let (access, others) = next_slot(left, units, slot);
        left = others;
        if slots.push(access).is_err() {
            return Err(AllocError);
        }
    }
    Ok(slots)
}

/// A log that opens, unconnected, its limit and its consumers at the start: all its memory is zero,
/// and room. The seat has all.
pub fn open(alloc: Global, key: &Key) -> Result<(LogMemory, LogSeat), AllocError>
    requires geometry { IsGeometry key.now.identity.geometry }
    requires unit { key.now.start % 32 ≡ 0 }
    requires below { key.now.start < max_position key.now.identity.geometry }
    requires count { IsConsumerCount key.now.consumers }
    ensures { IfOk result (λ o. IsOpened key.now o.0.table.shared.key o.0.table.shared.table_id
        o.1.table_id o.1.me) }
{
    let geometry = key.identity.geometry();
    let units = units_of(&geometry);
    let words = first_words(alloc, key, units)?;
    let bytes = vec![in alloc; 0u8; 32 * units]?;
    let (start, region, memory) = Region::from_vec(bytes);
    let slots = rooms(alloc, memory, units)?;
    let site = Site {
        key: *key,
        region: region.key(),
    };
    let opened = Table::new(alloc, words.as_slice(), slots, &site);
    let Site { key: _, region: _ } = site;
    let Ok((table, seat)) = opened else {
        return Err(AllocError);
    };
    let Ok(region) = Arc::new(alloc, region) else {
        return Err(AllocError);
    };
    let memory = LogMemory {
        table,
        region,
        start,
        units: units as u64,
        shift: shift_of(&geometry),
    };
    Ok((memory, seat))
}
