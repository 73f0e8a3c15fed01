//! A stream: publishers, and a reader with the keeper behind it.

ghost use Rattle.std.specs.Prelude.{◌≡◌, ◌*◌, ◌<◌, ◌≤◌, IfErr, IfOk, length};
ghost use Rattle.std.specs.List.{AllByRecursion};
ghost use Rattle.shared_log.specs.Readers.{IsReaderOf};
ghost use Rattle.log_rule.specs.Claims.Sums.{total};
ghost use Rattle.speed.specs.Rounds.{IsFilled, IsFollower, IsKept, IsLane, parts_of};

use crate::rounds::closing::close_all;
use crate::rounds::gate::{Gate, Lap, duration, joined, lap};
use crate::rounds::lane::{Lane, lap_of, run_first};
use crate::rounds::offering::Aim;
use crate::rounds::opening::{Ready, open_ready};
use crate::rounds::reading::follow;
use block::Block;
use position::Geometry;
use shared_log::{Book, Keeper, Log, LogError, LogReader};
use std::alloc::Global;
use std::thread;
use std::thread::Threads;
use std::time::{Clock, Duration, Instant};

/// What a stream leaves: the log's book, how many messages were sent and how many of them were read, and the time from the
/// threads' common start to the last one's end, if the clock could be read.
#[derive(Drop)]
pub struct Stream {
    pub book: Book,
    pub sent: u64,
    pub read: u64,
    pub taken: Option<Duration>,
}

/// What follows the publishers, how many messages it has read, and when.
#[derive(Drop)]
pub(crate) struct Follower {
    pub(crate) reader: LogReader,
    pub(crate) keeper: Keeper,
    pub(crate) block: Block,
    pub(crate) read: u64,
    pub(crate) lap: Lap,
}

/// Reads so many messages, from the common start on.
fn run_follower<R: Clock>(
    rt: &R,
    log: &Log,
    gate: &Gate,
    wanted: u64,
    mut follower: Follower,
) -> Follower
    requires { IsFollower log.now follower }
    ensures keeper { IsKept log.now result.keeper }
    ensures low { result.read ≤ wanted }
{
    gate.pass();
    let began = Instant::now(rt);
    follower.read = follow(
        log,
        &mut follower.reader,
        &mut follower.keeper,
        &mut follower.block,
        wanted,
    );
    follower.lap = lap(began, Instant::now(rt));
    follower
}

/// Sends so many messages of 200 bytes from each of so many publishers of a fresh log, each in a thread of its own, while
/// another reads them all and keeps the log. Then the log is closed, as after a round. It fails only where memory is
/// refused.
pub fn play_stream<R: Threads + Clock + Sync>(
    rt: &R,
    alloc: Global,
    geometry: Geometry,
    publishers: usize,
    messages: u32,
) -> Result<Stream, LogError>
    requires some { 0 < publishers }
    requires eight { publishers ≤ 8 }
    ensures filled { IfOk result (λ s. IsFilled geometry s.book s.sent) }
    ensures read { IfOk result (λ s. s.read ≤ publishers * messages) }
    ensures memory { IfErr result (λ e. e ≡ LogError.Memory) }
{
    let block = Block::new(alloc, geometry.mtu() as usize)?;
    let Ready {
        log,
        lanes,
        mut readers,
        keeper,
    } = open_ready(alloc, geometry)?;
    let follower = Follower {
        reader: readers.remove(0),
        keeper,
        block,
        read: 0,
        lap: None,
    };
    let wanted = publishers as u64 * u64::from(messages);
    let gate = Gate::new(publishers + 1);
    let (shared, common) = (&log, &gate);
    let (lanes, follower) = thread::join(
        rt,
        move || -> [Lane; 8]
            requires { (0 < publishers) × (publishers ≤ 8) × AllByRecursion (IsLane shared.now) lanes × AllByRecursion (λ lane. lane.accepted ≡ 0) lanes × (total parts_of lanes ≡ 1016) }
            ensures { AllByRecursion (IsLane shared.entry.now) result × (total parts_of result ≡ 1016) }
        { run_first(rt, shared, common, Aim::Send(messages), publishers, lanes) },
        move || run_follower(rt, shared, common, wanted, follower),
    );
    let taken = duration(joined(lap_of(&lanes[..publishers]), follower.lap));
    let (book, sent) = close_all(alloc, log, lanes, readers, follower.keeper)?;
    Ok(Stream {
        book,
        sent,
        read: follower.read,
        taken,
    })
}
