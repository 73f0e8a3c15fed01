//! The agent of a sender that reads a log which threads share.

ghost use Rattle.std.specs.Prelude.{◌≡◌, ◌≤◌, ◌<◌, [], IfOk, false};
ghost use Rattle.flow_control.specs.Stream.{flow_after, group_of};
ghost use Rattle.position.specs.Openings.{IsStart};
ghost use Rattle.shared_log.specs.Parts.{IsNewReader};
ghost use Rattle.agents.specs.LogSenders.{IsNewSenderBy, SendsLog};

use crate::sender_agent::SenderAgent;
use flow_control::{StreamFlow, group_of};
use sender::SenderCore;
use shared_log::{Log, LogFrames, LogReader};
use std::alloc::{AllocError, Global};

/// The agent of a log's sender, to one destination or to several.
pub type StreamSender<'a> = SenderAgent<LogFrames<'a>, StreamFlow>;

/// An agent that has sent nothing of its log and begins at the log's start, to so many destinations: to one receiver, whatever its id,
/// or to a group of as many, with the ids from 0 on. The error comes only where memory is refused.
#[tactic(auto, using(crate::proofs::NewSenders::start_below, crate::proofs::NewSenders::start_fits))]
pub fn open_stream_sender<'a>(
    alloc: Global,
    log: &'a Log,
    reader: LogReader,
    destinations: usize,
) -> Result<StreamSender<'a>, AllocError>
    requires reader { IsNewReader log.now 0 reader }
    requires start { IsStart log.now.identity.geometry log.now.start }
    requires consumers { 0 < log.now.consumers }
    requires few { destinations ≤ 8 }
    ensures new { IfOk result (IsNewSenderBy (flow_after (group_of destinations) log.now.start []) log.now reader) }
    ensures sends { IfOk result (SendsLog log.now) }
{
    let flow = StreamFlow::new(log.start(), group_of(destinations));
    let reads = LogFrames { log, reader };
    match SenderCore::new(alloc, log.identity(), log.start(), reads, flow) {
        Ok(core) => Ok(SenderAgent::new(core)),
        Err(_) => Err(AllocError),
    }
}
