//! The receiver's core: datagrams and moments in, outcomes and replies out.

ghost use Rattle.std.specs.Prelude.{◌≡◌, ◌≤◌, ◌<◌, ◌^◌, ◌↔◌, ◌∷◌, [], ℕ, List, None, Some, Err, length, map, max, IfNone, IfOk, IfSome, OnErr, IsTrue, vec_capacity};
ghost use Rattle.std.specs.List.{AllByRecursion};
ghost use Rattle.std.specs.Option.{ForSome, option_copied, option_map, option_to_list};
ghost use Rattle.theory.specs.Insert.{AreApart, head_of};
ghost use Rattle.image.specs.Rebuilding.{geometry_of};
ghost use Rattle.theory.specs.Control as control;
ghost use Rattle.theory.specs.Control.{asking_at};
ghost use Rattle.theory.specs.Position.{max_position};
ghost use Rattle.theory.specs.Timing as timing;
ghost use Rattle.theory.specs.Wire.{IsFrame, IsHeader, NAK, SM, SpellsDatagram, Wire};
ghost use Rattle.frames.specs.FaultCounts.{counted_at, place_of};
ghost use Rattle.frames.specs.Frames.{header_of, nak_of, setup_of, status_of, wire};
ghost use Rattle.image.specs.Seen.{IsCount};
ghost use Rattle.image.specs.Stored.{IsOfStream, stream_frame};
ghost use Rattle.receiver.specs.Representing.{last_status_of};
ghost use Rattle.receiver.specs.Polling.{TellsImage};
ghost use Rattle.receiver.specs.Dealt.{HasNoReaders, ImageTakes, Learns, MayLearn};
ghost use Rattle.receiver.specs.Seating.{AreSeated, MaySit, Sits};
ghost use Rattle.receiver.specs.Texts.{outcome_text};

use crate::dealing::only_reader;
use crate::loss_detector::LossDetector;
use crate::opened::{OpenImage, open, position_in};
use crate::positions::Positions;
use crate::readers::Readers;
use crate::setup::fault::SetupError;
use crate::setup::judgement::judge;
use frames::{
    FaultCounts, Frame, FrameError, Header, Nak, Setup, Status, check_datagram, known_frame,
};
use image::{ImageReader, Insert, insert, meet};
use position::{Gap, Geometry, Identity};
use std::alloc::{AllocError, Global};
use std::fmt;
use std::marker::Model;

/// Nanoseconds after which a status message goes out again.
pub const STATUS_INTERVAL: u64 = 200_000_000;

/// What became of one frame of a datagram, or of the datagram.
#[derive(Clone, Copy, Debug, PartialEq, Eq)]
pub enum Outcome {
    Inserted(Insert),
    /// A heartbeat met the image.
    Heartbeat,
    /// A SETUP opened the image, at this position.
    Opened(u64),
    /// A SETUP met the image.
    Kept,
    /// There is no image: a SETUP will be asked for.
    Asked,
    SetupRefused(SetupError),
    /// Another session or stream, or a kind that no receiver takes.
    Other,
    /// The datagram can't be read.
    Refused(FrameError),
}

impl fmt::Display for Outcome {
    ghost output = { λ outcome. Some (outcome_text outcome) };

    fn fmt<W: fmt::Write>(&self, f: &mut fmt::Formatter<W>) -> fmt::Result {
        match *self {
            Outcome::Inserted(answer) => f.write_str(answer.code()),
            Outcome::Heartbeat => f.write_str("heartbeat"),
            Outcome::Opened(position) => write!(f, "opened {position}"),
            Outcome::Kept => f.write_str("kept"),
            Outcome::Asked => f.write_str("asked"),
            Outcome::SetupRefused(error) => f.write_str(error.code()),
            Outcome::Other => f.write_str("other"),
            Outcome::Refused(error) => f.write_str(error.code()),
        }
    }
}

/// What a tick sends, in this order.
#[derive(Clone, Copy, Debug, PartialEq, Eq)]
pub struct Replies {
    /// Asks for a SETUP.
    pub asking: Option<Status>,
    /// Asks again for what is missing.
    pub nak: Option<Nak>,
    /// Says where the consumer stands.
    pub status: Option<Status>,
}

/// The status message that went out last.
#[derive(Clone, Copy, Debug, PartialEq, Eq)]
struct LastSent {
    position: u64,
    moment: u64,
}

/// Rebuilds one stream of one session.
#[derive(Drop)]
pub struct ReceiverCore {
    alloc: Global,
    session: i32,
    stream: i32,
    window: u32,
    receiver: i64,
    consumers: usize,
    pub(crate) image: Option<OpenImage>,
    /// The header of the last frame that met no image since the last tick.
    unmet: Option<Header>,
    told: Option<LastSent>,
    detector: LossDetector,
    /// The greatest moment that it has seen.
    clock: u64,
    /// How many datagrams it has refused, by their fault.
    faults: FaultCounts,
}

impl Model for ReceiverCore {
    ghost use Rattle.std.specs.Option.{option_map};
    ghost use Rattle.frames.specs.Frames.{header_of};
    ghost use Rattle.receiver.specs.Representing.{Core, IsCore, last_status_of};

    ghost Value = { Core };

    ghost view = { λ c. record { session = c.session; stream = c.stream; window = c.window; id = c.receiver; consumers = c.consumers; image = c.image; unmet = option_map header_of c.unmet; told = option_map last_status_of c.told; watch = c.detector; clock = c.clock; faults = c.faults.counts } };

    ghost invariant = { λ c. IsCore (record { session = c.session; stream = c.stream; window = c.window; id = c.receiver; consumers = c.consumers; image = c.image; unmet = option_map header_of c.unmet; told = option_map last_status_of c.told; watch = c.detector; clock = c.clock; faults = c.faults.counts }) };
}

impl ReceiverCore {
    ghost use Rattle.receiver.specs.Receiving.{IfOurs, IsOurs, IsSetupWire, WouldOpen, Meets, MeetsFrame, MeetsHeartbeat, MeetsSetup, Receiver, listening, missing, replied, replies, scanned_at, telling, ticked, told_after};
    ghost use Rattle.receiver.specs.Representing.{BecomesSeen, HearsDatagram, ImageLooks, ImageSeesOn, IsForImage, MeetsEach, Represents, core_seen_as};

    /// A receiver without an image, for one to eight consumers. Its window is in bytes.
    pub fn new(
        alloc: Global,
        session: i32,
        stream: i32,
        window: u32,
        receiver: i64,
        consumers: usize,
    ) -> ReceiverCore
        requires { IsCount consumers }
        ensures shown { (greatest : ℕ) → Represents result (listening session stream window receiver consumers greatest) }
        ensures image { result.image ≡ None }
        ensures consumers { result.consumers ≡ consumers }
    {
        ReceiverCore {
            alloc,
            session,
            stream,
            window,
            receiver,
            consumers,
            image: None,
            unmet: None,
            told: None,
            detector: LossDetector::new(),
            clock: 0,
            faults: FaultCounts::new(),
        }
    }

    /// The image, once a SETUP has opened it.
    pub fn image(&self) -> Option<&OpenImage>
        ensures { option_copied result ≡ self.now.image }
    {
        self.image.as_ref()
    }

    /// How far its image is rebuilt, and the least position at which a consumer stood when a datagram or a tick looked last.
    /// There is nothing to tell without an image.
    pub fn positions(&self) -> Option<Positions>
        ensures told { TellsImage self.now.image result }
        ensures order { IfSome result (λ p. (p.least ≤ p.rebuilt) × (p.rebuilt ≤ p.high_water)) }
    {
        match &self.image {
            None => None,
            Some(image) => Some(image.positions()),
        }
    }

    /// The readers of its image, once after a SETUP has opened it: none before, and none again. It asks for no memory.
    pub fn take_readers(&mut self) -> Option<Readers>
        ensures none { IfNone result ((self.new ≡ self.old) × HasNoReaders self.old.image) }
        ensures taken { IfSome result (λ r. ImageTakes self.old.image r self.new.image) }
        ensures count { IfSome result (λ r. length r.readers.items ≡ self.old.consumers) }
        ensures stays { self.new ≡ record self.old { image = self.new.image } }
    {
        let Some(image) = &mut self.image else {
            return None;
        };
        image.take_readers()
    }

    /// Tells one of its image's readers each frame that was stored so far, which it then finds, and sees it where it stands.
    pub fn learn(&mut self, reader: &mut ImageReader)
        requires may { MayLearn self.old.image reader.old }
        ensures may { MayLearn self.new.image reader.new }
        ensures learnt { Learns self.old.image reader.old self.new.image reader.new }
        ensures stays { self.new ≡ record self.old { image = self.new.image } }
    {
        let Some(opened) = &mut self.image else {
            return;
        };
        meet(&opened.image, reader, &mut opened.inserter);
    }

    /// Sees its image's one reader where that stands, and tells it what was stored so far. The
    /// reader is taken from the image if there is none.
    pub(crate) fn sit(&mut self, reader: &mut Option<ImageReader>)
        requires one { self.old.consumers ≡ 1 }
        requires may { MaySit self.old.image reader.old }
        ensures seated { AreSeated self.new.image reader.new }
        ensures stays { self.new ≡ record self.old { image = self.new.image } }
        ensures sits { Sits self.old.image reader.old self.new.image }
    {
        let Some(opened) = &mut self.image else {
            return;
        };
        if let Some(reader) = reader {
            meet(&opened.image, reader, &mut opened.inserter);
            return;
        }
        let Some(taken) = opened.take_readers() else {
            unreachable!()
        };
        let mut first = only_reader(taken);
        meet(&opened.image, &mut first, &mut opened.inserter);
        *reader = Some(first);
    }

    /// Notes a moment.
    fn see(&mut self, now: u64)
        ensures { self.new ≡ record self.old { clock = max self.old.clock now } }
    {
        self.clock = self.clock.max(now);
    }

    /// Takes a datagram at a moment, in nanoseconds of any clock that doesn't go back, and says what became of each of its frames. One that can't be read is counted by its fault. The
    /// image's consumers are looked at once for each frame, and may have gone forward since they were seen last.
    /// Memory is asked for twice: for the outcomes, and at a SETUP that opens an image. Where it is refused, nothing has
    /// changed, the moment isn't seen either, and the datagram may be handed in again.
    pub fn on_datagram(&mut self, bytes: &[u8], now: u64) -> Result<Vec<Outcome>, AllocError>
        ensures heard { IfOk result (λ outs. HearsDatagram self.old now bytes.now outs.items self.new) }
        ensures refused { OnErr result (self.new ≡ self.old) }
        ensures consumers { self.new.consumers ≡ self.old.consumers }
        // Whatever bytes came, frames that the image stored have no byte in common.
        ensures apart { ForSome self.new.image (λ i. AreApart (map head_of i.stored)) }
    {
        self.stored_apart();
        match check_datagram(bytes) {
            Ok(count) => {
                let outcomes = Vec::with_capacity(self.alloc, count)?;
                let before = self.clock;
                self.see(now);
                let taken = self.on_frames(bytes, count, outcomes);
                if taken.is_err() {
                    self.clock = before;
                }
                self.stored_apart();
                taken
            }
            Err(error) => {
                let outcomes = refused(self.alloc, error)?;
                self.see(now);
                self.count(error);
                Ok(outcomes)
            }
        }
    }

    /// Does nothing, and says what holds of its image, whatever it was handed.
    fn stored_apart(&self)
        ensures { ForSome self.now.image (λ i. AreApart (map head_of i.stored)) }
    {
        if let Some(image) = &self.image {
            image.stored_apart();
        }
    }

    /// How many datagrams it has refused by `F1`, `F2` and so on to `F8`. A count stays at the greatest `u64`.
    pub fn faults(&self) -> [u64; 8]
        ensures { result ≡ self.now.faults }
    {
        self.faults.counts
    }

    /// The same, as they are counted.
    pub(crate) fn refused(&self) -> FaultCounts
        ensures { result.counts ≡ self.now.faults }
    {
        self.faults
    }

    /// Counts a datagram that was refused for this fault.
    fn count(&mut self, error: FrameError)
        ensures { self.new ≡ record self.old { faults = counted_at (place_of error) self.old.faults } }
    {
        self.faults.count(error);
    }

    /// Takes the frames of a datagram that has so many. Only a SETUP that opens an image asks for memory, and it stands alone.
    fn on_frames(
        &mut self,
        datagram: &[u8],
        count: usize,
        mut outcomes: Vec<Outcome>,
    ) -> Result<Vec<Outcome>, AllocError>
        requires frames { (frames : List Wire) × SpellsDatagram frames datagram.now × (length frames ≡ count) }
        requires empty { outcomes.items ≡ [] }
        requires room { count ≤ vec_capacity outcomes }
        ensures met { (frames : List Wire) → SpellsDatagram frames datagram.now → length frames ≡ count
            → IfOk result (λ outs. MeetsEach self.old frames outs.items self.new) }
        ensures refused { OnErr result (self.new ≡ self.old) }
        ensures consumers { self.new.consumers ≡ self.old.consumers }
    {
        let mut rest = datagram;
        for _turn in 0..count {
            let (frame, size) = known_frame(rest);
            let outcome = self.on_frame(&frame)?;
            outcomes.push_reserved(outcome);
            rest = &rest[size..];
        }
        Ok(outcomes)
    }

    fn on_frame(&mut self, frame: &Frame<'_>) -> Result<Outcome, AllocError>
        requires { IsFrame (wire frame.now) }
        ensures met { IfOk result (λ out. BecomesSeen self.old self.new (λ r s. Meets r (wire frame.now) out s)) }
        ensures looks { IfOk result (λ _. IsForImage self.old (wire frame.now) → ImageLooks self.old.image self.new.image) }
        ensures refused { OnErr result (self.new ≡ self.old) }
        ensures wanted { OnErr result (IsSetupWire (wire frame.now)) }
        ensures consumers { self.new.consumers ≡ self.old.consumers }
    {
        match *frame {
            Frame::Data { header, .. } => Ok(self.on_stored(&header, frame)),
            Frame::Pad { header, .. } => Ok(self.on_stored(&header, frame)),
            Frame::Heartbeat { header } => Ok(self.on_heartbeat(&header)),
            Frame::Setup(setup) => self.on_setup(&setup),
            Frame::Nak(_) => Ok(Outcome::Other),
            Frame::Status { .. } => Ok(Outcome::Other),
        }
    }

    fn is_mine(&self, session: i32, stream: i32) -> bool
        ensures { IsTrue result ↔ ((session ≡ self.now.session) × (stream ≡ self.now.stream)) }
    {
        session == self.session && stream == self.stream
    }

    /// Hands a DATA frame or a padding with this header to the image, if it is of its stream.
    fn on_stored(&mut self, header: &Header, frame: &Frame<'_>) -> Outcome
        requires header { IsHeader (header_of header.now) }
        requires frame { IsFrame (wire frame.now) }
        requires stored { IsOfStream frame.now }
        ensures met { BecomesSeen self.old self.new (λ r s. IfOurs r header.now.session header.now.stream (MeetsFrame r.image r (header_of header.now) (stream_frame frame.now) result s) result s) }
        ensures looks { (header.now.session ≡ self.old.session) × (header.now.stream ≡ self.old.stream) → ImageLooks self.old.image self.new.image }
        ensures consumers { self.new.consumers ≡ self.old.consumers }
    {
        if !self.is_mine(header.session, header.stream) {
            return Outcome::Other;
        }
        match &mut self.image {
            None => {
                self.unmet = Some(*header);
                Outcome::Asked
            }
            Some(opened) => {
                let position = position_in(&opened.geometry(), header);
                let image = &*opened.image;
                Outcome::Inserted(insert(image, &mut opened.inserter, position, frame))
            }
        }
    }

    fn on_heartbeat(&mut self, header: &Header) -> Outcome
        requires { IsHeader (header_of header.now) }
        ensures met { BecomesSeen self.old self.new (λ r s. IfOurs r header.now.session header.now.stream (MeetsHeartbeat r.image r (header_of header.now) result s) result s) }
        ensures looks { (header.now.session ≡ self.old.session) × (header.now.stream ≡ self.old.stream) → ImageLooks self.old.image self.new.image }
        ensures consumers { self.new.consumers ≡ self.old.consumers }
    {
        if self.is_mine(header.session, header.stream) {
            self.hear(header)
        } else {
            Outcome::Other
        }
    }

    fn hear(&mut self, header: &Header) -> Outcome
        requires { IsHeader (header_of header.now) }
        ensures met { BecomesSeen self.old self.new (λ r s. MeetsHeartbeat r.image r (header_of header.now) result s) }
        ensures looks { ImageLooks self.old.image self.new.image }
        ensures consumers { self.new.consumers ≡ self.old.consumers }
    {
        match &mut self.image {
            None => {
                self.unmet = Some(*header);
                Outcome::Asked
            }
            Some(image) => {
                image.hear(header);
                Outcome::Heartbeat
            }
        }
    }

    fn on_setup(&mut self, setup: &Setup) -> Result<Outcome, AllocError>
        ensures met { IfOk result (λ out. BecomesSeen self.old self.new (λ r s.
            IfOurs r setup.now.session setup.now.stream (MeetsSetup r.image r (setup_of setup.now) out s) out s)) }
        ensures refused { OnErr result (self.new ≡ self.old) }
        ensures wanted { OnErr result ((r : Receiver) → Represents self.old r → IsOurs r setup.now.session setup.now.stream × WouldOpen r.image r (setup_of setup.now)) }
        ensures consumers { self.new.consumers ≡ self.old.consumers }
    {
        if self.is_mine(setup.session, setup.stream) {
            self.set_up(setup)
        } else {
            Ok(Outcome::Other)
        }
    }

    fn set_up(&mut self, setup: &Setup) -> Result<Outcome, AllocError>
        ensures met { IfOk result (λ out. BecomesSeen self.old self.new (λ r s. MeetsSetup r.image r (setup_of setup.now) out s)) }
        ensures refused { OnErr result (self.new ≡ self.old) }
        ensures wanted { OnErr result ((r : Receiver) → Represents self.old r → WouldOpen r.image r (setup_of setup.now)) }
        ensures consumers { self.new.consumers ≡ self.old.consumers }
    {
        if self.image.is_some() {
            return Ok(Outcome::Kept);
        }
        match judge(setup, self.window) {
            Err(error) => Ok(Outcome::SetupRefused(error)),
            Ok(named) => {
                let identity = Identity::new(named.0, self.session, self.stream);
                let image = open(self.alloc, identity, named.1, self.window, self.consumers)?;
                self.image = Some(image);
                self.unmet = None;
                Ok(Outcome::Opened(named.1))
            }
        }
    }

    /// Takes a moment, in nanoseconds, and gives what goes out then. The image's consumers are looked at once.
    pub fn tick(&mut self, now: u64) -> Replies
        ensures replies { (r : Receiver) → Represents (core_seen_as self.old self.new) r → replied result ≡ replies r now }
        ensures state { (r : Receiver) → Represents (core_seen_as self.old self.new) r → Represents self.new (ticked r now) }
        ensures sees { ImageSeesOn self.old.image self.new.image }
        ensures looks { ImageLooks self.old.image self.new.image }
        ensures written { AllByRecursion IsFrame (replied result) }
        ensures consumers { self.new.consumers ≡ self.old.consumers }
    {
        self.see(now);
        let asking = self.ask();
        let status = self.tell();
        let nak = self.miss();
        Replies {
            asking,
            nak,
            status,
        }
    }

    /// The message that asks for a SETUP, where a frame met no image since the last tick.
    fn ask(&mut self) -> Option<Status>
        ensures asked { option_map (λ f. SM 128 (status_of f)) result ≡ option_map (λ h. asking_at h self.old.id) self.old.unmet }
        ensures state { self.new ≡ record self.old { unmet = None } }
    {
        let Some(header) = self.unmet.take() else {
            return None;
        };
        Some(asking(&header, self.receiver))
    }

    /// The message that asks again for the first gap of the image, if the loss detector tells it.
    fn miss(&mut self) -> Option<Nak>
        ensures missed { (r : Receiver) → Represents self.old r → map (λ f. NAK (nak_of f)) (option_to_list result) ≡ missing r.image r }
        ensures state { (r : Receiver) → Represents self.old r → Represents self.new (record r { watch = (scanned_at r.image r).watch }) }
        ensures image { self.new.image ≡ self.old.image }
        ensures consumers { self.new.consumers ≡ self.old.consumers }
    {
        match &mut self.image {
            None => None,
            Some(image) => {
                let gap = image.find_gap();
                let told = self.detector.scan(self.clock, gap);
                let Some(missed) = told else {
                    return None;
                };
                Some(nak_at(&image.geometry(), self.session, self.stream, missed))
            }
        }
    }

    /// The message that says where the consumers stand, if it is due.
    fn tell(&mut self) -> Option<Status>
        ensures told { (r : Receiver) → Represents (core_seen_as self.old self.new) r → map (λ f. SM 0 (status_of f)) (option_to_list result) ≡ telling r.image r }
        ensures state { (r : Receiver) → Represents (core_seen_as self.old self.new) r → Represents self.new (record r { told = told_after r.image r }) }
        ensures sees { ImageSeesOn self.old.image self.new.image }
        ensures looks { ImageLooks self.old.image self.new.image }
        ensures consumers { self.new.consumers ≡ self.old.consumers }
    {
        match &mut self.image {
            None => None,
            Some(image) => {
                let position = image.least();
                if !is_due(self.told, self.window, position, self.clock) {
                    return None;
                }
                let status = status_in(image, self.session, self.stream, position, self.receiver);
                self.told = Some(LastSent {
                    position,
                    moment: self.clock,
                });
                Some(status)
            }
        }
    }
}

/// The one outcome of a datagram that can't be read.
fn refused(alloc: Global, error: FrameError) -> Result<Vec<Outcome>, AllocError>
    ensures { IfOk result (λ outs. outs.items ≡ Outcome.Refused error ∷ []) }
{
    let mut outcomes = Vec::new(alloc);
    outcomes.push(Outcome::Refused(error))?;
    Ok(outcomes)
}

/// The message by which a receiver asks for a SETUP, with the place of the frame that met no image.
pub fn asking(header: &Header, receiver: i64) -> Status
    requires { IsHeader (header_of header.now) }
    ensures { SM 128 (status_of result) ≡ asking_at (header_of header.now) receiver }
{
    Status {
        session: header.session,
        stream: header.stream,
        term_id: header.term_id,
        term_offset: header.term_offset.cast_signed(),
        window: 0,
        receiver,
    }
}

/// The negative acknowledgement of a receiver that misses this range.
fn nak_at(geometry: &Geometry, session: i32, stream: i32, gap: Gap) -> Nak
    requires start { gap.start ≤ max_position geometry.now }
    requires length { gap.length < 2 ^ 31 }
    ensures { NAK (nak_of result) ≡ control.nak_at (record { geometry = geometry.now; session = session; stream = stream }) (record { start = gap.start; length = gap.length }) }
{
    let place = geometry.term_of(gap.start);
    Nak {
        session,
        stream,
        term_id: place.term_id,
        term_offset: place.offset.cast_signed(),
        length: gap.length as i32,
    }
}

/// Whether a status message is due: the first, after 200 ms, or where the least consumer has moved by a quarter of the window.
fn is_due(told: Option<LastSent>, window: u32, position: u64, clock: u64) -> bool
    ensures { result ≡ timing.is_status_due (option_to_list (option_map last_status_of told)) window position clock }
{
    match told {
        None => true,
        Some(told) => {
            clock >= told.moment.saturating_add(STATUS_INTERVAL)
                || position.saturating_sub(told.position) >= u64::from(window.div_ceil(4))
        }
    }
}

/// The status message of a receiver with this image, whose least consumer stands at this position.
fn status_in(image: &OpenImage, session: i32, stream: i32, position: u64, receiver: i64) -> Status
    requires { position ≤ max_position (geometry_of image.now) }
    ensures { SM 0 (status_of result) ≡ control.status_at (record { geometry = geometry_of image.now; session = session; stream = stream }) position image.now.window receiver }
{
    status_at(
        &image.geometry(),
        session,
        stream,
        position,
        image.window(),
        receiver,
    )
}

/// The status message of a receiver whose least consumer stands at this position.
fn status_at(
    geometry: &Geometry,
    session: i32,
    stream: i32,
    position: u64,
    window: u32,
    receiver: i64,
) -> Status
    requires position { position ≤ max_position geometry.now }
    requires window { window < 2 ^ 31 }
    ensures { SM 0 (status_of result) ≡ control.status_at (record { geometry = geometry.now; session = session; stream = stream }) position window receiver }
{
    let place = geometry.term_of(position);
    Status {
        session,
        stream,
        term_id: place.term_id,
        term_offset: place.offset.cast_signed(),
        window: window.cast_signed(),
        receiver,
    }
}
