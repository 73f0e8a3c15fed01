//! The image that a SETUP opened: what frames, heartbeats and a consumer's reading make of it.

ghost use Rattle.std.specs.Prelude.{◌≡◌, ◌≤◌, ◌<◌, ◌/◌, ◌^◌, List, [], Some, length, map, replicate, IfNone, IfOk, IfSome};
ghost use Rattle.std.specs.List.{AllByRecursion};
ghost use Rattle.position.specs.Gaps.{gap_of};
ghost use Rattle.image.specs.Seen.{IsCount, IsJoin, least};
ghost use Rattle.image.specs.Stored.{IsUnit};
ghost use Rattle.theory.specs.Control.{named_by};
ghost use Rattle.theory.specs.Image.{IsWindow};
ghost use Rattle.theory.specs.Insert.{AreApart, head_of};
ghost use Rattle.theory.specs.Position.{IsGeometry, max_position};
ghost use Rattle.theory.specs.Units.{IsContiguous};
ghost use Rattle.theory.specs.Wire.{IsHeader};
ghost use Rattle.frames.specs.Frames.{header_of};
ghost use Rattle.image.specs.Rebuilding.{geometry_of, join_of};
ghost use Rattle.receiver.specs.Polling.{TellsImage};
ghost use Rattle.receiver.specs.Receiving.{Opened, gap_in};
ghost use Rattle.receiver.specs.Representing.{HearsBeat, LooksOnce, RepresentsImage, SeesOn};
ghost use Rattle.receiver.specs.Dealt.{TakesReaders};

use crate::dealing::{deal_all, room_for};
use crate::positions::Positions;
use crate::readers::Readers;
use frames::Header;
use image::{Image, ImageError, Inserter, Steps, first_gap, heartbeat, least};
use position::{Gap, Geometry, Identity};
use std::alloc::{AllocError, Global};
use std::marker::Model;
use std::sync::Arc;

/// An image that threads share without a lock, and who rebuilds the stream in it.
#[derive(Drop)]
pub struct OpenImage {
    pub(crate) image: Arc<Image, Global>,
    pub(crate) inserter: Inserter,
    /// Room for its readers, as long as they aren't given away.
    room: Option<Readers>,
}

impl Model for OpenImage {
    ghost use Rattle.std.specs.Arc.{arc_value};
    ghost use Rattle.image.specs.Rebuilding.{Inserting};
    ghost use Rattle.receiver.specs.Dealt.{IsOpenImage};

    ghost Value = { Inserting };

    ghost view = { λ o. o.inserter };

    ghost invariant = { λ o. IsOpenImage (arc_value o.image) o.inserter o.room };
}

/// The position that a header names.
pub(crate) fn position_in(geometry: &Geometry, header: &Header) -> i64
    requires legal { IsGeometry geometry.now }
    requires header { IsHeader (header_of header.now) }
    ensures unit { IsUnit result }
    ensures named { result ≡ named_by geometry.now (header_of header.now) }
{
    geometry.position(header.term_id, header.term_offset.cast_signed())
}

/// An image that holds nothing, which has all its readers yet. The error comes only where memory was refused.
pub(crate) fn open(
    alloc: Global,
    identity: Identity,
    join: u64,
    window: u32,
    consumers: usize,
) -> Result<OpenImage, AllocError>
    requires join { IsJoin identity.geometry join }
    requires window { IsWindow identity.geometry.term_length identity.geometry.mtu window }
    requires consumers { IsCount consumers }
    ensures { IfOk result (λ i. i ≡ record { of = i.of; key = record { identity = identity; join = join / 32; consumers = consumers }; window = window; stored = []; high = join; floor = join; seen = replicate consumers join; looks = replicate consumers 0; undealt = consumers }) }
{
    match image::open(alloc, identity, join, window, consumers) {
        Ok((image, inserter)) => {
            let image = Arc::new(alloc, image)?;
            let room = room_for(alloc, &image, consumers)?;
            Ok(OpenImage {
                image,
                inserter,
                room: Some(room),
            })
        }
        Err(ImageError::Memory) => Err(AllocError),
        Err(_) => unreachable!(),
    }
}

impl OpenImage {
    /// The shape of the stream.
    pub fn geometry(&self) -> Geometry
        ensures value { result ≡ geometry_of self.now }
        ensures legal { IsGeometry result }
    {
        let _ = &self.inserter;
        let image = &*self.image;
        image.identity().geometry()
    }

    /// The bytes above the least consumer that it takes.
    pub fn window(&self) -> u32
        ensures value { result ≡ self.now.window }
        ensures legal { IsWindow (geometry_of self.now).term_length (geometry_of self.now).mtu result }
    {
        self.inserter.window()
    }

    /// The end of what was stored without a gap from the join on. No consumer was seen above it.
    pub fn rebuilt(&self) -> u64
        ensures value { IsContiguous self.now.stored (join_of self.now) result }
        ensures marked { result ≤ self.now.high }
        ensures behind { AllByRecursion (λ p. (join_of self.now ≤ p) × (p ≤ result)) self.now.seen }
    {
        self.inserter.rebuilt()
    }

    /// The greatest end of a stored frame or position of an accepted heartbeat, or the join.
    pub fn high_water(&self) -> u64
        ensures value { result ≡ self.now.high }
        ensures low { result ≤ max_position (geometry_of self.now) }
    {
        self.inserter.high_water()
    }

    /// Where it stands, and the least position at which a consumer stood when it looked last.
    pub(crate) fn positions(&self) -> Positions
        ensures told { TellsImage (Some self.now) (Some result) }
        ensures order { (result.least ≤ result.rebuilt) × (result.rebuilt ≤ result.high_water) }
    {
        Positions {
            least: self.inserter.floor(),
            rebuilt: self.inserter.rebuilt(),
            high_water: self.inserter.high_water(),
        }
    }

    /// Does nothing, and says what holds of it, whatever it was handed.
    pub(crate) fn stored_apart(&self)
        ensures { AreApart (map head_of self.now.stored) }
    {
        self.inserter.stored_apart();
    }

    /// Takes a heartbeat with this header. The consumers are looked at once.
    pub(crate) fn hear(&mut self, header: &Header)
        requires header { IsHeader (header_of header.now) }
        ensures heard { HearsBeat self.old (header_of header.now) self.new }
        ensures sees { SeesOn self.old self.new }
        ensures looks { LooksOnce self.old self.new }
    {
        let position = position_in(&self.geometry(), header);
        let image = &*self.image;
        let _ = heartbeat(image, &mut self.inserter, position);
    }

    /// Its first gap. It begins at a position of the stream, and is no longer than a term.
    pub(crate) fn find_gap(&mut self) -> Option<Gap>
        ensures first { (o : Opened) → RepresentsImage self.old o → gap_of result ≡ gap_in o }
        ensures low { IfSome result (λ gap. (gap.start ≤ max_position (geometry_of self.old)) × (gap.length < 2 ^ 31)) }
        ensures same { self.new ≡ self.old }
    {
        // What always holds of it, for the proof.
        let _ = self.geometry();
        let _ = self.inserter.rebuilt();
        let _ = self.inserter.high_water();
        let image = &*self.image;
        first_gap(image, &mut self.inserter, &mut Steps::new())
    }

    /// Looks where the consumers stand. The answer is the least position that it read.
    pub(crate) fn least(&mut self) -> u64
        ensures value { result ≡ least self.new.seen }
        ensures low { result ≤ max_position (geometry_of self.new) }
        ensures shown { (o : Opened) → RepresentsImage (record self.old { seen = self.new.seen }) o → RepresentsImage self.new o }
        ensures sees { SeesOn self.old self.new }
        ensures looks { LooksOnce self.old self.new }
    {
        let image = &*self.image;
        least(image, &mut self.inserter)
    }

    /// Its readers, once.
    pub(crate) fn take_readers(&mut self) -> Option<Readers>
        ensures none { IfNone result ((self.new ≡ self.old) × (self.old.undealt ≡ 0)) }
        ensures taken { IfSome result (λ r. TakesReaders self.old r self.new) }
        ensures stays { self.new ≡ record self.old { undealt = self.new.undealt } }
    {
        let Some(mut taken) = self.room.take() else {
            return None;
        };
        let image = &*self.image;
        let count = image.consumers();
        deal_all(image, &mut self.inserter, &mut taken.readers, count);
        Some(taken)
    }
}
