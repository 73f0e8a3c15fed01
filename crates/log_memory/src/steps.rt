//! The kinds of step on a log's words, where its frames lie in plain memory.

ghost use Rattle.std.specs.Prelude.{ℕ, ◌%◌};
ghost use Rattle.publication.specs.declared.pass.FrameWords as frames;
ghost use Rattle.publication.specs.declared.pass.Reading as readings;
ghost use Rattle.log_memory.specs.declared.view.Site as sites;

use crate::view::LogView;
use atomic_table::Play;
use log_rule::{Chosen, Seated};
use region::Access;
use std::marker::{Brand, PhantomData};

/// What a call picks for its step: the log's table, a number, a consumer, and a frame.
pub trait Picked {
    ghost site: { sites.Site };

    ghost number: { ℕ };

    ghost reading: { readings.Reading };

    ghost frame: { frames.FrameWords };
}

impl Picked for Brand {
    ghost use Rattle.log_memory.specs.Kinds.{no_frame, no_reading, no_site};

    ghost site = { no_site };

    ghost number = { 0 };

    ghost reading = { no_reading };

    ghost frame = { no_frame };
}

/// The limit is loaded.
pub struct See;

impl Play<Access, LogView> for See {
    ghost use Rattle.log_memory.specs.Kinds.{LoadsLimit};

    ghost then = { λ _. LoadsLimit };
}

/// The active count is loaded.
pub struct Count;

impl Play<Access, LogView> for Count {
    ghost use Rattle.log_memory.specs.Kinds.{LoadsCount};

    ghost then = { λ _. LoadsCount };
}

/// The tail of the count that was seen is loaded.
pub struct Arm;

impl Play<Access, LogView> for Arm {
    ghost use Rattle.log_memory.specs.Kinds.{LoadsTail};

    ghost then = { λ _. LoadsTail };
}

/// The tail behind the chosen count's is loaded.
pub struct Next<N> {
    chosen: PhantomData<N>,
}

impl<N: Chosen> Play<Access, LogView> for Next<N> {
    ghost use Rattle.log_memory.specs.Kinds.{LoadsNext};

    ghost then = { λ _. LoadsNext N.number };
}

/// The tail behind the chosen count's is exchanged.
pub struct Rotate<N> {
    chosen: PhantomData<N>,
}

impl<N: Chosen> Play<Access, LogView> for Rotate<N> {
    ghost use Rattle.log_memory.specs.Kinds.{ExchangesNext};

    ghost then = { λ st. ExchangesNext N.number st.first };
}

/// The active count is exchanged.
pub struct ExchangeCount;

impl Play<Access, LogView> for ExchangeCount {
    ghost use Rattle.log_memory.specs.Kinds.{AdvancesCount};

    ghost then = { λ st. AdvancesCount st.first };
}

/// What a message of the chosen size covers is added to a tail, and the seat takes the room of what
/// it claims.
pub struct Add<N> {
    chosen: PhantomData<N>,
}

impl<N: Picked> Play<Access, LogView> for Add<N> {
    ghost use Rattle.log_memory.specs.Steps.{Adds};

    ghost then = { λ _. Adds N.site N.number };
}

/// The word of the chosen frame is stored, and its parts go to those who read it.
pub struct Commit<N> {
    chosen: PhantomData<N>,
}

impl<N: Picked> Play<Access, LogView> for Commit<N> {
    ghost use Rattle.log_memory.specs.Steps.{Commits};

    ghost then = { λ _ m _ w. Commits N.site N.frame.start N.frame.words m w };
}

/// The chosen consumer loads the word where it stands, and takes its part of the frame that begins
/// there. The chosen number is its place among those that its seat has.
pub struct LookHere<N> {
    chosen: PhantomData<N>,
}

impl<N: Picked> Play<Access, LogView> for LookHere<N> {
    ghost use Rattle.log_memory.specs.Kinds.{LooksHere};

    ghost then = { λ _. LooksHere N.site N.number N.reading };
}

/// The chosen consumer loads the word of the chosen frame, which it has, and takes its part of it.
pub struct Reread<N> {
    chosen: PhantomData<N>,
}

impl<N: Picked> Play<Access, LogView> for Reread<N> {
    ghost use Rattle.log_memory.specs.Steps.{Rereads};

    ghost then = { λ _. Rereads N.site N.reading N.frame };
}

/// A consumer gives its part of a frame back, at a load.
pub struct Give;

impl Play<Access, LogView> for Give {
    ghost use Rattle.log_memory.specs.Steps.{Gives};

    ghost then = { λ _ m _ w. Gives m w };
}

/// The position of the consumer at the chosen place is stored.
pub struct Consume<N> {
    chosen: PhantomData<N>,
}

impl<N: Chosen> Play<Access, LogView> for Consume<N> {
    ghost use Rattle.log_memory.specs.Kinds.{StoresPosition};

    ghost then = { λ _. StoresPosition N.number };
}

/// The keeper loads the word of the first frame whose memory wasn't taken back, and takes it.
pub struct TakeBack<N> {
    chosen: PhantomData<N>,
}

impl<N: Picked> Play<Access, LogView> for TakeBack<N> {
    ghost use Rattle.log_memory.specs.Steps.{TakesBack};

    ghost then = { λ _. TakesBack N.site };
}

/// The keeper stores zero over that word, and gives the memory as room.
pub struct GiveRoom;

impl Play<Access, LogView> for GiveRoom {
    ghost use Rattle.log_memory.specs.Steps.{GivesRoom};

    ghost then = { λ _ m _ w. GivesRoom m w };
}

/// The room of the open frames of a seat's pass goes home, at a load.
pub struct Park;

impl Play<Access, LogView> for Park {
    ghost use Rattle.log_memory.specs.Parking.{Parks};

    ghost then = { λ _ m _ w. Parks m w };
}

/// The seat that has the pass then takes it from there, at a load.
pub struct Fetch<N> {
    chosen: PhantomData<N>,
}

impl<N: Picked> Play<Access, LogView> for Fetch<N> {
    ghost use Rattle.log_memory.specs.Parking.{Fetches};

    ghost then = { λ _ m _ w. Fetches N.site m w };
}

/// The keeper knows that all is zero up to the chosen position, at a load.
pub struct CleanTo<N> {
    chosen: PhantomData<N>,
}

impl<N: Chosen> Play<Access, LogView> for CleanTo<N> {
    ghost use Rattle.log_memory.specs.Steps.{CleansTo};

    ghost then = { λ _ m _ w. CleansTo N.number m w };
}

/// The keeper loads the position of the consumer with the chosen number.
pub struct Sweep<N> {
    chosen: PhantomData<N>,
}

impl<N: Chosen> Play<Access, LogView> for Sweep<N> {
    ghost use Rattle.log_memory.specs.Kinds.{LoadsPosition};

    ghost then = { λ _. LoadsPosition N.number };
}

/// The keeper stores where a consumer begins whose number nobody had: its own pass is that consumer
/// then.
pub struct Place<N> {
    seated: PhantomData<N>,
}

impl<N: Seated> Play<Access, LogView> for Place<N> {
    ghost use Rattle.log_memory.specs.Kinds.{Begins};

    ghost then = { λ _. Begins N.number N.place };
}

/// The keeper stores zero for a consumer of its own pass, whose number nobody has then.
pub struct Vacate<N> {
    seated: PhantomData<N>,
}

impl<N: Seated> Play<Access, LogView> for Vacate<N> {
    ghost use Rattle.log_memory.specs.Kinds.{Ends};

    ghost then = { λ _. Ends N.place N.number };
}

/// The keeper stores the limit word.
pub struct Raise;

impl Play<Access, LogView> for Raise {
    ghost use Rattle.log_memory.specs.Kinds.{StoresLimit};

    ghost then = { λ _. StoresLimit };
}

/// A pass is told what is true of it for good.
pub struct Settle;

impl Play<Access, LogView> for Settle {
    ghost use Rattle.log_memory.specs.Kinds.{IsSteadied};

    ghost then = { λ _. IsSteadied };
}

/// A pass is told how much it has claimed.
pub struct Weigh;

impl Play<Access, LogView> for Weigh {
    ghost use Rattle.log_memory.specs.Kinds.{IsWeighed};

    ghost then = { λ _. IsWeighed };
}

/// The raw tail of the chosen partition is loaded: a pass is shown the position that it shows.
pub struct Show<N> {
    chosen: PhantomData<N>,
}

impl<N: Chosen> Play<Access, LogView> for Show<N> {
    ghost use Rattle.log_memory.specs.Kinds.{ShowsPartition};

    ghost then = { λ _. ShowsPartition (N.number % 3) };
}
