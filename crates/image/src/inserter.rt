//! An image opens, its readers are dealt, and what its inserter counts.

ghost use Rattle.std.specs.Prelude.{◌≡◌, ◌*◌, ◌/◌, ◌+◌, ◌-◌, ◌%◌, ◌<◌, ◌≤◌, ◌↔◌, suc, [], map, replicate, IfOk, IsErrOf, ◌^◌, length};
ghost use Rattle.std.specs.List.{AllByRecursion};
ghost use Rattle.theory.specs.Position.{IsGeometry, max_position};
ghost use Rattle.theory.specs.Image.{IsWindow};
ghost use Rattle.theory.specs.Insert.{AreApart, head_of};
ghost use Rattle.theory.specs.Units.{IsContiguous};
ghost use Rattle.region.specs.Identity.{start_address};
ghost use Rattle.region.specs.Pooled.{all_of};
ghost use Rattle.image.specs.Seen.{IsCount, IsFit, IsJoin, least};
ghost use Rattle.image.specs.Handles.{IsReaderOf, position_of, IsStoreOf};
ghost use Rattle.image.specs.Rebuilding.{IsInserterOf, Looked, geometry_of, join_of};
ghost use Rattle.image_rule.specs.Frames.{image_length, ring};
ghost use Rattle.image_rule.specs.Rule.{BeginsAt, Begun, IsKey, dealing_seat, first_seat, image_place, reader_seat};

pub(crate) mod clearing;
pub(crate) mod frame_store;
pub(crate) mod gap;
pub(crate) mod hand;
pub(crate) mod inserting;
pub(crate) mod looking;
pub(crate) mod room;
pub(crate) mod spelling;
pub(crate) mod storing;

use crate::fault::{CONSUMERS, ImageError};
use crate::inserter::clearing::{clear_to, see_all};
use crate::inserter::frame_store::FrameStore;
use crate::inserter::hand::Hand;
use crate::inserter::room::Room;
use crate::reader::{ImageReader, Standing};
use crate::words::{IMAGE, Image, ImageTable, Words};
use atomic_table::{Seat, Table};
use image_rule::{Chosen, Deal, Key, Site, View};
use position::Identity;
use region::{Pool, ReadAccess, Region, RegionStart};
use std::alloc::{AllocError, Global};
use std::marker::{Brand, Model};
use std::sync::Arc;

/// The units of three terms.
fn units_of(key: &Key) -> u64
    requires { key.now.consumers ≤ 8 }
    ensures is { result ≡ ring key.now }
    ensures key { IsKey key.now }
    ensures few { result ≤ 2 ^ 40 }
{
    3 * u64::from(key.identity.geometry().term_length()) / 32
}

/// By how many bits the number of a unit is shifted to count the terms before it.
fn shift_of(key: &Key) -> u32
    ensures power { 32 * 2 ^ result ≡ key.now.identity.geometry.term_length }
    ensures low { result < 32 }
{
    (key.identity.geometry().term_length() / 32).trailing_zeros()
}

/// Its consumers stand at the join.
fn begin(words: &mut Vec<u64>, consumers: u64, join: u64)
    requires few { consumers ≤ 8 }
    requires low { join ≤ 2 ^ 56 }
    requires wide { 128 ≤ length words.old.items }
    ensures { BeginsAt consumers join words.old.items words.new.items }
{
    for number in 0..consumers {
        words[16 * number as usize] = 32 * join;
    }
}

/// The words of an image that opens.
fn first_words(alloc: Global, units: u64, key: &Key) -> Result<Vec<u64>, AllocError>
    requires units { units ≡ ring key.now }
    requires key { IsKey key.now }
    requires few { units ≤ 2 ^ 40 }
    requires low { key.now.join ≤ 2 ^ 56 }
    ensures { IfOk result (λ words. Begun key.now words.items) }
{
    let units = units as usize;
    let mut words = vec![in alloc; 0; IMAGE + units / 64 * 2]?;
    begin(&mut words, key.consumers, key.join);
    Ok(words)
}

/// As many slots, with no part of any right.
fn no_parts(alloc: Global, count: usize) -> Result<Vec<ReadAccess>, AllocError>
    ensures { IfOk result (λ parts. length parts.items ≡ count) }
{
    let mut parts = Vec::new(alloc);
    for _ in 0..count {
        if parts.push(ReadAccess::none()).is_err() {
            return Err(AllocError);
        }
    }
    Ok(parts)
}

/// The region where the frames of an image lie, and where that begins; and all its bytes, which are free.
fn open_room(alloc: Global, units: u64) -> Result<(Arc<Region>, RegionStart, Room), AllocError>
    requires some { 0 < units }
    requires few { units ≤ 2 ^ 40 }
    ensures { IfOk result (λ r. (r.1.address ≡ start_address r.0.value.identity) ×
        (r.2.pool.identity ≡ r.0.value.identity) × (r.2.pool.free ≡ all_of (32 * units))) }
{
    let bytes = vec![in alloc; 0u8; 32 * units as usize]?;
    let (start, region, access) = Region::from_vec(bytes);
    let Ok(region) = Arc::new(alloc, region) else {
        return Err(AllocError);
    };
    let Ok(shared) = Arc::try_clone(&region) else {
        return Err(AllocError);
    };
    let pool = Pool::new(access);
    let room = Room {
        pool,
        region: shared,
        start,
    };
    Ok((region, start, room))
}

/// The table of an image that opens, and its inserter's seat.
fn open_table(
    alloc: Global,
    units: u64,
    key: &Key,
    region: &Region,
) -> Result<(ImageTable, Seat<ReadAccess, View>), AllocError>
    requires units { units ≡ ring key.now }
    requires key { IsKey key.now }
    requires few { units ≤ 2 ^ 40 }
    requires low { key.now.join ≤ 2 ^ 56 }
    ensures key { IfOk result (λ r. (r.0.shared.key.key ≡ key.now) × (r.0.shared.key.region.identity
        ≡ region.now.identity)) }
    ensures counts { IfOk result (λ r. (r.0.shared.table_id.words ≡ image_place + image_length
        units) × (r.0.shared.table_id.slots ≡ 8 * units)) }
    ensures seat { IfOk result (λ r. (r.1.table_id ≡ r.0.shared.table_id) × (r.1.me ≡ (
      first_seat
          key.now,
      [],
    ))) }
{
    let words = first_words(alloc, units, key)?;
    let slots = no_parts(alloc, 8 * units as usize)?;
    let site = Site {
        key: *key,
        region: region.key(),
    };
    let opened = Table::new(alloc, words.as_slice(), slots, &site);
    let Site { key: _, region: _ } = site;
    let Ok((table, seat)) = opened else {
        return Err(AllocError);
    };
    Ok((table, seat))
}

/// An image that holds nothing, and its frames. The error comes only where memory was refused.
pub(crate) fn open_words(
    alloc: Global,
    identity: Identity,
    join: u64,
    consumers: u64,
) -> Result<(Image, FrameStore), AllocError>
    requires unit { join % 32 ≡ 0 }
    requires within { join ≤ max_position identity.geometry }
    requires some { 0 < consumers }
    requires few { consumers ≤ 8 }
    ensures key { IfOk result (λ r. r.0.key ≡ record { identity = identity; join = join / 32; consumers = consumers }) }
    ensures fits { IfOk result (λ r. IsStoreOf r.0 r.1) }
    ensures whole { IfOk result (λ r. r.1.view ≡ first_seat r.0.key) }
{
    let _ = identity.geometry();
    let key = Key {
        identity,
        join: join / 32,
        consumers,
    };
    let units = units_of(&key);
    let heads = vec![in alloc; 0; units as usize]?;
    let (region, start, room) = open_room(alloc, units)?;
    let (table, seat) = open_table(alloc, units, &key, &region)?;
    let floor = key.join;
    let place = region.key();
    let image = Image {
        words: Words {
            table,
            key,
            units,
            shift: shift_of(&key),
            region,
            start,
        },
    };
    let hand = Hand { seat, floor };
    let store = FrameStore {
        hand,
        key,
        region: place,
        room: Some(room),
        heads,
    };
    Ok((image, store))
}

/// The last reader that the inserter has.
fn deal_as<N: Chosen>(image: &Words, hand: &mut Hand, number: u64, join: u64) -> Standing
    requires fits { hand.old.seat.table_id ≡ image.now.table.shared.table_id }
    requires few { number < 8 }
    requires some { hand.old.seat.me.0.undealt ≡ suc number }
    requires join { join ≡ image.now.key.join }
    requires chosen { N.number ≡ join }
    ensures fits { (hand.new.seat.table_id ≡ hand.old.seat.table_id) × (result.seat.table_id ≡ hand.old.seat.table_id) }
    ensures lies { (result.units ≡ image.now.units) × (result.region ≡
        image.now.table.shared.key.region) }
    ensures left { hand.new.seat.me ≡ (dealing_seat hand.old.seat.me.0, hand.old.seat.me.1) }
    ensures reader { (result.seat.me.0 ≡ reader_seat join hand.old.seat.me.0) × (result.read_to ≡ join) }
{
    let _ = &image.table;
    let words = &image.table.shared;
    let seat = words.split_seat::<Deal<N>>(&mut hand.seat);
    Standing {
        seat,
        number,
        unit: join,
        read_to: join,
        units: image.units,
        region: image.region.key(),
    }
}

/// The last reader that the inserter has, with this number. It stands at the join.
pub(crate) fn deal_reader(image: &Image, inserter: &mut FrameStore, number: u64) -> ImageReader
    requires fits { IsStoreOf image.now inserter.old }
    requires few { number < 8 }
    requires some { inserter.old.view.undealt ≡ suc number }
    ensures fits { IsStoreOf image.now inserter.new × IsReaderOf image.now result }
    ensures left { inserter.new ≡ record inserter.old { view = dealing_seat inserter.old.view } }
    ensures reader { result ≡ record { of = inserter.old.of; view = reader_seat image.now.key.join inserter.old.view; read_to = image.now.key.join } }
{
    let _ = &image.words;
    let _ = &inserter.hand;
    let join = image.words.key.join;
    let standing = deal_as::<Brand>(&image.words, &mut inserter.hand, number, join);
    ImageReader { standing }
}

/// Who rebuilds a stream in an image that threads share. There is one for each image.
#[derive(Drop)]
pub struct Inserter {
    pub(crate) words: FrameStore,
    pub(crate) window: u32,
    /// The end of what was stored without a gap.
    pub(crate) rebuilt: u64,
    pub(crate) high_water: u64,
}

impl Model for Inserter {
    ghost use Rattle.image.specs.Rebuilding.{Inserting, IsRebuilding, inserting};

    ghost Value = { Inserting };

    ghost view = { λ n. inserting n.words n.window n.high_water };

    ghost invariant = { λ n. IsRebuilding (inserting n.words n.window n.high_water) n.rebuilt };
}

/// An image of a stream that holds nothing, with all its consumers at the join, and its inserter, which has all its readers
/// yet. It takes all the memory that is ever needed, and asks for it only where the arguments are legal.
pub fn open(
    alloc: Global,
    identity: Identity,
    join: u64,
    window: u32,
    consumers: usize,
) -> Result<(Image, Inserter), ImageError>
    ensures key { IfOk result (λ r. r.0.key ≡ record { identity = identity; join = join / 32; consumers = consumers }) }
    ensures opened { IfOk result (λ r. r.1 ≡ record { of = r.0.of; key = r.0.key; window = window; stored = []; high = join; floor = join; seen = replicate consumers join; looks = replicate consumers 0; undealt = consumers }) }
    ensures legal { IfOk result (λ _. IsJoin identity.geometry join × IsWindow identity.geometry.term_length identity.geometry.mtu window × IsCount consumers) }
    ensures asked { IsErrOf result ImageError.Memory → IsJoin identity.geometry join × IsWindow identity.geometry.term_length identity.geometry.mtu window × IsCount consumers }
    ensures bad_join { IsErrOf result ImageError.Join ↔ (¬ IsJoin identity.geometry join) }
    ensures bad_window { IsErrOf result ImageError.Window ↔ (IsJoin identity.geometry join × (¬ IsWindow identity.geometry.term_length identity.geometry.mtu window)) }
    ensures bad_count { IsErrOf result ImageError.Consumers ↔ (IsJoin identity.geometry join × IsWindow identity.geometry.term_length identity.geometry.mtu window × (¬ IsCount consumers)) }
{
    let geometry = identity.geometry();
    if !join.is_multiple_of(32) || join > geometry.max_position() {
        return Err(ImageError::Join);
    }
    if !geometry.is_window(window) {
        return Err(ImageError::Window);
    }
    if consumers == 0 || consumers > CONSUMERS {
        return Err(ImageError::Consumers);
    }
    let Ok((image, words)) = open_words(alloc, identity, join, consumers as u64) else {
        return Err(ImageError::Memory);
    };
    let inserter = Inserter {
        words,
        window,
        rebuilt: join,
        high_water: join,
    };
    Ok((image, inserter))
}

/// The last reader that the inserter has, with this number. It stands at the join.
pub fn deal(image: &Image, inserter: &mut Inserter, number: u64) -> ImageReader
    requires fits { IsInserterOf image.now inserter.old }
    requires few { number < 8 }
    requires some { inserter.old.undealt ≡ suc number }
    ensures fits { IsReaderOf image.now result }
    ensures left { inserter.new ≡ record inserter.old { undealt = number } }
    ensures number { result.view.reading.number ≡ number }
    ensures position { position_of result ≡ join_of inserter.old }
{
    deal_reader(image, &mut inserter.words, number)
}

/// Looks where the consumers stand, and lets go of what all have passed. The answer is the least position that it read.
pub fn least(image: &Image, inserter: &mut Inserter) -> u64
    requires fits { IsInserterOf image.now inserter.old }
    ensures looked { Looked inserter.old inserter.old.stored inserter.old.high inserter.new }
    ensures value { result ≡ least inserter.new.seen }
    ensures low { result ≤ max_position (geometry_of inserter.new) }
    ensures unit { result % 32 ≡ 0 }
{
    let _ = inserter.words.floor();
    let store = &mut inserter.words;
    let _ = &image.words;
    let _ = &store.hand;
    let lowest = 32 * see_all(&image.words, &mut store.hand);
    clear_to(image, store, lowest);
    lowest
}

impl Inserter {
    /// The end of what was stored without a gap from the join on. No consumer was seen above it.
    pub fn rebuilt(&self) -> u64
        ensures value { IsContiguous self.now.stored (join_of self.now) result }
        ensures unit { result % 32 ≡ 0 }
        ensures marked { result ≤ self.now.high }
        ensures behind { AllByRecursion (λ p. (join_of self.now ≤ p) × (p ≤ result)) self.now.seen }
        ensures floor { self.now.floor ≤ result }
    {
        self.rebuilt
    }

    /// The least position at which a consumer stood when it looked last, or the join.
    pub fn floor(&self) -> u64
        ensures { result ≡ self.now.floor }
    {
        self.words.floor()
    }

    /// The greatest end of a stored frame or position of an accepted heartbeat, or the join.
    pub fn high_water(&self) -> u64
        ensures value { result ≡ self.now.high }
        ensures low { result ≤ max_position (geometry_of self.now) }
        ensures near { result ≤ self.now.floor + 2 * (geometry_of self.now).term_length }
    {
        self.high_water
    }

    /// The bytes above the least consumer that it takes.
    pub fn window(&self) -> u32
        ensures value { result ≡ self.now.window }
        ensures legal { IsWindow (geometry_of self.now).term_length (geometry_of self.now).mtu result }
    {
        self.window
    }

    /// Does nothing, and says what holds of each inserter, whatever it was handed: the frames that were ever stored don't
    /// overlap, each starts in whole units at or above the join, and ends within its term and at or below the high-water
    /// mark.
    pub fn stored_apart(&self)
        ensures apart { AreApart (map head_of self.now.stored) }
        ensures fit { AllByRecursion (IsFit (geometry_of self.now).term_length self.now.high) self.now.stored }
        ensures from { AllByRecursion (λ s. join_of self.now ≤ s.at) self.now.stored }
    {
        let _ = &self.words;
    }
}
