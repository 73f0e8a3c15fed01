//! A log that opens.

ghost use Rattle.std.specs.Prelude.{◌≡◌, ◌∷◌, [], IfErr, IfNone, IfOk, IfSome};
ghost use Rattle.std.specs.List.{All};
ghost use Rattle.std.specs.Arc.{arc_value};
ghost use Rattle.std.specs.declared.option.Option.TheVariants.{None, Some};
ghost use Rattle.shared_log.specs.Steps.Handles.{IsOf};
ghost use Rattle.shared_log.specs.Keepers.{KeeperValue};
ghost use Rattle.claims.specs.Passes.Reading.{IsUnread};
ghost use Rattle.claims.specs.Passes.Shapes.{DeclinesShape, IsShape, as_fault, shape_of};

use crate::claimant::Claimant;
use crate::parts::Parts;
use crate::passes::fault::Fault;
use crate::passes::keeping::KeeperPass;
use crate::passes::publishing::PublisherPass;
use crate::passes::reading::ReaderPass;
use position::{Geometry, GeometryError};
use shared_log::{Keeper, Log, LogError, LogReader};
use std::alloc::Global;
use std::sync::Arc;

/// Which stream a log carries, where it begins, and how many consumers it opens with.
#[repr(C)]
#[derive(Clone, Copy, Debug, PartialEq, Eq)]
pub struct Config {
    /// Bytes of a term: a power of two from 65,536 to 16,777,216.
    pub term_length: u32,
    /// The most bytes of one frame: a multiple of 32 from 256 to 65,504, an eighth of a term at the most.
    pub mtu: u32,
    pub initial_term_id: i32,
    pub session: i32,
    pub stream: i32,
    /// From 1 to 8.
    pub consumers: u32,
    /// The position at which the stream begins, a multiple of 32.
    pub start: u64,
}

/// A log that was opened, and the passes that were not taken yet, by their numbers.
#[derive(Drop)]
pub struct Opened {
    pub log: Arc<Log, Global>,
    pub publishers: Vec<Claimant>,
    pub readers: Vec<LogReader>,
    pub keeper: Option<Keeper>,
    /// Makes the room of any pass greater, so that no two parties write to one cache line.
    apart: [u64; 8],
    ghost publishers_fit: { All (IsOf (arc_value log)) publishers.items },
    ghost readers_fit: { All (IsUnread (arc_value log)) readers.items },
    ghost keeper_fits: { (k : KeeperValue) → keeper ≡ Some k → IsOf (arc_value log) k.held },
}

/// The shape of its stream.
fn geometry_of(config: &Config) -> Result<Geometry, Fault>
    ensures is { IfOk result (λ g. g ≡ shape_of config.now) }
    ensures legal { IfOk result (λ _. IsShape config.now) }
    ensures declined { IfErr result (DeclinesShape config.now) }
{
    match Geometry::new(config.term_length, config.mtu, config.initial_term_id) {
        Ok(geometry) => Ok(geometry),
        Err(GeometryError::TermLength) => Err(Fault::TermLength),
        Err(GeometryError::Mtu) => Err(Fault::Mtu),
    }
}

fn fault_of(error: LogError) -> Fault
    ensures { result ≡ as_fault error }
{
    match error {
        LogError::Start => Fault::Start,
        LogError::Consumers => Fault::Consumers,
        LogError::Memory => Fault::Memory,
        LogError::Full => Fault::Full,
        LogError::Last => Fault::Full,
    }
}

/// The first of several publishers.
fn first_publisher(log: &Log, publishers: &mut Vec<Claimant>) -> Option<Claimant>
    requires { All (IsOf log.now) publishers.old.items }
    ensures first { IfSome result (λ p. publishers.old.items ≡ p ∷ publishers.new.items) }
    ensures fits { IfSome result (λ p. IsOf log.now p) }
    ensures none { IfNone result ((publishers.old.items ≡ []) × (publishers.new ≡ publishers.old)) }
    ensures others { All (IsOf log.now) publishers.new.items }
{
    let _ = log;
    if publishers.is_empty() {
        return None;
    }
    Some(publishers.remove(0))
}

/// The first of several readers.
fn first_reader(log: &Log, readers: &mut Vec<LogReader>) -> Option<LogReader>
    requires { All (IsUnread log.now) readers.old.items }
    ensures first { IfSome result (λ r. readers.old.items ≡ r ∷ readers.new.items) }
    ensures fits { IfSome result (λ r. IsUnread log.now r) }
    ensures none { IfNone result ((readers.old.items ≡ []) × (readers.new ≡ readers.old)) }
    ensures others { All (IsUnread log.now) readers.new.items }
{
    let _ = log;
    if readers.is_empty() {
        return None;
    }
    Some(readers.remove(0))
}

/// The keeper, once.
fn the_keeper(log: &Log, keeper: &mut Option<Keeper>) -> Option<Keeper>
    requires { (k : KeeperValue) → keeper.old ≡ Some k → IsOf log.now k.held }
    ensures is { result ≡ keeper.old }
    ensures gone { keeper.new ≡ None }
    ensures fits { IfSome result (λ k. IsOf log.now k.held) }
{
    let _ = log;
    keeper.take()
}

impl Opened {
    ghost use Rattle.claims.specs.Passes.Opening.{DeclinesKeeper, DeclinesLog, DeclinesPublisher, DeclinesReader, OpensLog, TakesKeeper, TakesPublisher, TakesReader};

    /// Opens a log, unconnected, with its limit and its consumers at the start, and all its passes. The term length is judged
    /// first, then the MTU, the start and the number of consumers; then memory is asked for.
    pub fn open(alloc: Global, config: &Config) -> Result<Opened, Fault>
        ensures opened { IfOk result (λ o. OpensLog config.now o) }
        ensures declined { IfErr result (λ fault. DeclinesLog config.now fault) }
    {
        let geometry = geometry_of(config)?;
        let opened = crate::parts::open(
            alloc,
            geometry,
            config.session,
            config.stream,
            config.start,
            config.consumers as usize,
        );
        let (log, parts) = match opened {
            Ok(opened) => opened,
            Err(error) => return Err(fault_of(error)),
        };
        let Parts {
            claimants,
            readers,
            keeper,
        } = parts;
        let Ok(publishers) = Vec::from_array(alloc, claimants) else {
            return Err(Fault::Memory);
        };
        let Ok(log) = Arc::new(alloc, log) else {
            return Err(Fault::Memory);
        };
        Ok(Opened {
            log,
            publishers,
            readers,
            keeper: Some(keeper),
            apart: [0; 8],
        })
    }

    /// The first publisher that nobody took yet. The fault is `NoneLeft`, or `Memory`; nothing is taken then.
    pub fn take_publisher(&mut self) -> Result<PublisherPass, Fault>
        ensures taken { IfOk result (λ p. TakesPublisher self.old p self.new) }
        ensures declined { IfErr result (λ fault. DeclinesPublisher self.old fault self.new) }
    {
        let Ok(log) = Arc::try_clone(&self.log) else {
            return Err(Fault::Memory);
        };
        match first_publisher(&log, &mut self.publishers) {
            Some(publisher) => Ok(PublisherPass::new(log, publisher)),
            None => Err(Fault::NoneLeft),
        }
    }

    /// The first reader that nobody took yet. The fault is `NoneLeft`, or `Memory`; nothing is taken then.
    pub fn take_reader(&mut self) -> Result<ReaderPass, Fault>
        ensures taken { IfOk result (λ p. TakesReader self.old p self.new) }
        ensures declined { IfErr result (λ fault. DeclinesReader self.old fault self.new) }
    {
        let Ok(log) = Arc::try_clone(&self.log) else {
            return Err(Fault::Memory);
        };
        match first_reader(&log, &mut self.readers) {
            Some(reader) => Ok(ReaderPass::begin(log, reader)),
            None => Err(Fault::NoneLeft),
        }
    }

    /// The keeper, once. The fault is `NoneLeft`, or `Memory`; nothing is taken then.
    pub fn take_keeper(&mut self) -> Result<KeeperPass, Fault>
        ensures taken { IfOk result (λ p. TakesKeeper self.old p self.new) }
        ensures declined { IfErr result (λ fault. DeclinesKeeper self.old fault self.new) }
    {
        let Ok(log) = Arc::try_clone(&self.log) else {
            return Err(Fault::Memory);
        };
        match the_keeper(&log, &mut self.keeper) {
            Some(keeper) => Ok(KeeperPass::new(log, keeper)),
            None => Err(Fault::NoneLeft),
        }
    }
}
