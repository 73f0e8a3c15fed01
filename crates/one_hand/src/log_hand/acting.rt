//! The calls of one publisher after another, by the pass that has all of them.

ghost use Rattle.std.specs.Prelude.{◌≡◌, ◌+◌, ◌<◌, ◌≤◌, IfOk, IfErr, length};
ghost use Rattle.theory.specs.Position.{max_message, max_payload};
ghost use Rattle.one_hand.specs.Hands.{AbortsClaim, Claims, ClaimsNone, CommitsClaim, IsFree, MayEnd, Offers};

use crate::log_hand::held::Held;
use publication::Refusal;
use shared_log::{Log, OnLog, Publisher, renumber};

/// Offers a message as the publisher of a number.
pub(crate) fn offer_as(
    log: &Log,
    all: &mut Publisher,
    number: u64,
    message: &[u8],
) -> Result<u64, Refusal>
    requires free { IsFree log.now all.old }
    requires number { number < 8 }
    requires short { length message.now ≤ max_message log.now.identity.geometry }
    ensures { Offers log.now all.old number message.now result all.new }
{
    renumber(log, all, number);
    let mut words = OnLog::new(log);
    publication::offer(&mut words, all, message)
}

/// Claims a range for a message of `size` bytes as the publisher of a number. The answer is where the range begins.
pub(crate) fn claim_as(
    log: &Log,
    all: &mut Publisher,
    number: u64,
    size: u32,
) -> Result<u64, Refusal>
    requires free { IsFree log.now all.old }
    requires number { number < 8 }
    requires short { size ≤ max_payload log.now.identity.geometry }
    ensures accepted { IfOk result (λ start. Claims log.now all.old number size start all.new) }
    ensures refused { IfErr result (λ why. ClaimsNone log.now all.old number size why all.new) }
{
    renumber(log, all, number);
    let mut words = OnLog::new(log);
    publication::try_claim(&mut words, all, size)
}

/// Commits an open claim as the publisher of a number. The answer is the position behind it.
pub(crate) fn commit_as(
    log: &Log,
    all: &mut Publisher,
    number: u64,
    held: Held,
    payload: &[u8],
) -> u64
    requires free { IsFree log.now all.old }
    requires number { number < 8 }
    requires size { length payload.now ≡ held.size }
    requires may { MayEnd all.old.pass held (32 + held.size) }
    ensures { CommitsClaim log.now all.old number held payload.now result all.new }
{
    renumber(log, all, number);
    let mut words = OnLog::new(log);
    publication::commit(&mut words, all, held.start, payload)
}

/// Makes an open claim a padding, as the publisher of a number. The answer is the position behind it.
pub(crate) fn abort_as(log: &Log, all: &mut Publisher, number: u64, held: Held) -> u64
    requires free { IsFree log.now all.old }
    requires number { number < 8 }
    requires may { MayEnd all.old.pass held (32 + held.size) }
    ensures { AbortsClaim log.now all.old number held result all.new }
{
    renumber(log, all, number);
    let mut words = OnLog::new(log);
    publication::abort(&mut words, all, held.start, held.size)
}
