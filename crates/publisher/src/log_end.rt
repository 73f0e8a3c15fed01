//! The end of a publisher's log.

ghost use Rattle.std.specs.Prelude.{◌≡◌, ◌⊎◌, ◌∷◌, ◌++◌, [], IfSome, Ok};
ghost use Rattle.std.specs.Arc.{arc_value};
ghost use Rattle.std.specs.List.{AllByRecursion};
ghost use Rattle.peer.specs.declared.attendance.Ending.TheVariants.{Whole};
ghost use Rattle.shared_log.specs.Books.{IsCommittedBy, IsDone};
ghost use Rattle.shared_log.specs.Steps.Handles.{LogValue};
ghost use Rattle.shared_log.specs.Readers.{known_of};
ghost use Rattle.publisher.specs.Ended.{CanClose, IsClosed, LeavesPasses, ShowsAll};
ghost use Rattle.publisher.specs.Shorts.{unclosed};

use crate::fault::PublishFault;
use crate::offering::{InputEnd, OfferingState};
use peer::Ending;
use shared_log::{Book, Keeper, Log, LogReader, Publisher, close_read};
use std::sync::Arc;

/// What is left of a publisher's log: the log, where no thread has it any more, its other publishers, its keeper, and the reader
/// by which it was sent.
#[derive(Drop)]
pub struct LogEnd {
    pub log: Option<Log>,
    pub others: Vec<Publisher>,
    pub keeper: Keeper,
    pub reader: LogReader,
}

/// The log of what threads shared, where the others have let it go.
pub(crate) fn log_of(state: Arc<OfferingState>) -> Option<Log>
    ensures { IfSome result (λ l. l ≡ (arc_value state).log) }
{
    match Arc::try_unwrap(state) {
        Ok(state) => Some(state.into_log()),
        Err(_) => None,
    }
}

/// Closes a log, whose first publisher this is. There is no book where a thread still has the log, or memory is refused.
fn closed(end: LogEnd, publisher: Publisher) -> Option<Book>
    requires { (l : LogValue) × LeavesPasses l end × IsDone l publisher × (publisher.pass.right.parts ≡ 176) }
    ensures book { IfSome result (ShowsAll end.log end.others.items publisher) }
    ensures known { IfSome result (λ _. AllByRecursion (IsCommittedBy (end.others.items ++ publisher ∷ [])) (known_of end.reader)) }
{
    let LogEnd {
        log,
        mut others,
        keeper,
        reader,
    } = end;
    let Some(log) = log else {
        return None;
    };
    match others.push(publisher) {
        Ok(()) => Some(close_read(log, others, reader, keeper)),
        Err(_) => None,
    }
}

/// How one ended whose log isn't closed: not whole.
fn unclosed(ending: Result<Ending, PublishFault>) -> Result<Ending, PublishFault>
    ensures short { result ≡ Ok Whole → ⊥ }
    ensures kept { result ≡ unclosed ending }
{
    match ending {
        Ok(_) => Ok(Ending::Short),
        Err(fault) => Err(fault),
    }
}

/// How one ended of whose input and log this is left: whole only where the log was closed.
pub(crate) fn ending_closed<I: Drop>(
    ending: Result<Ending, PublishFault>,
    input: Option<InputEnd<I>>,
    end: LogEnd,
) -> Result<Ending, PublishFault>
    requires { CanClose input end }
    ensures whole { result ≡ Ok Whole → (ending ≡ Ok Whole) × IsClosed input end }
    ensures kept { (result ≡ ending) ⊎ (result ≡ unclosed ending) }
{
    let Some(left) = input else {
        return unclosed(ending);
    };
    match closed(end, left.publisher) {
        Some(_) => ending,
        None => unclosed(ending),
    }
}
