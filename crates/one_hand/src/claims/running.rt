//! The commands, one after the other.

ghost use Rattle.std.specs.Prelude.{◌≡◌, ◌≤◌, ◌&&◌, [], IfOk, OnOk, OnErr, is_none, length, nat_lt, vec_capacity};
ghost use Rattle.std.specs.Option.{option_map};
ghost use Rattle.one_hand.specs.Stream.{OpenClaim, claim_by};
ghost use Rattle.one_hand.specs.Commands.{aborted, after_all, after_command, answer_to, answers_of, claim_after, claim_answer, claim_for, claim_of, committed, ended, offer_after, offer_answer};

use crate::claims::Claims;
use crate::claims::claim_command::{ClaimAnswer, ClaimCommand};
use shared_log::PUBLISHERS;
use std::alloc::{AllocError, Global};

/// The size of the claim that a publisher has open. There is none where there is no such publisher.
fn open_size<L: Claims>(log: &L, publisher: u32) -> Option<u32>
    ensures { result ≡ option_map (λ (c : OpenClaim). c.size) (claim_of (L.stream log.now) publisher) }
{
    let number = publisher as usize;
    if number < PUBLISHERS {
        log.claimed(number)
    } else {
        None
    }
}

/// Whether there is such a publisher, and it has no claim open.
fn is_free<L: Claims>(log: &L, publisher: u32) -> bool
    ensures { result ≡ (nat_lt publisher 8 && is_none (claim_by (L.stream log.now) publisher)) }
{
    let number = publisher as usize;
    number < PUBLISHERS && log.claimed(number).is_none()
}

/// Offers a message.
fn run_offer<L: Claims>(log: &mut L, publisher: u32, message: &[u8]) -> ClaimAnswer
    ensures answer { result ≡ offer_answer (L.stream log.old) publisher message.now }
    ensures after { L.stream log.new ≡ offer_after (L.stream log.old) publisher message.now }
{
    if !is_free(log, publisher) || message.len() > log.geometry().max_message() as usize {
        return ClaimAnswer::Unfit;
    }
    match log.offer(publisher as usize, message) {
        Ok(end) => ClaimAnswer::Ends(end),
        Err(refusal) => ClaimAnswer::Refused(refusal),
    }
}

/// Claims a range for a message of this many bytes.
fn run_claim<L: Claims>(log: &mut L, publisher: u32, size: u32) -> ClaimAnswer
    ensures answer { result ≡ claim_answer (L.stream log.old) publisher size }
    ensures after { L.stream log.new ≡ claim_after (L.stream log.old) publisher size }
{
    if !is_free(log, publisher) || size > log.geometry().max_payload() {
        return ClaimAnswer::Unfit;
    }
    match log.claim(publisher as usize, size) {
        Ok((start, end)) => ClaimAnswer::Begins { start, end },
        Err(refusal) => ClaimAnswer::Refused(refusal),
    }
}

/// Commits the open claim with this payload.
fn run_commit<L: Claims>(log: &mut L, publisher: u32, payload: &[u8]) -> ClaimAnswer
    ensures answer { result ≡ ended (claim_for (L.stream log.old) publisher payload.now) }
    ensures after { L.stream log.new ≡ committed (L.stream log.old) publisher payload.now (claim_for (L.stream log.old) publisher payload.now) }
{
    match open_size(log, publisher) {
        Some(size) if size as usize == payload.len() => {
            ClaimAnswer::Ends(log.commit(publisher as usize, payload))
        }
        _ => ClaimAnswer::Unfit,
    }
}

/// Makes the open claim a padding.
fn run_abort<L: Claims>(log: &mut L, publisher: u32) -> ClaimAnswer
    ensures answer { result ≡ ended (claim_of (L.stream log.old) publisher) }
    ensures after { L.stream log.new ≡ aborted (L.stream log.old) publisher (claim_of (L.stream log.old) publisher) }
{
    if open_size(log, publisher).is_none() {
        return ClaimAnswer::Unfit;
    }
    ClaimAnswer::Ends(log.abort(publisher as usize))
}

/// Runs one command.
fn run_one<L: Claims>(log: &mut L, command: &ClaimCommand) -> ClaimAnswer
    ensures answer { result ≡ answer_to (L.stream log.old) command.now }
    ensures after { L.stream log.new ≡ after_command (L.stream log.old) command.now }
{
    match command {
        ClaimCommand::Offer { publisher, message } => run_offer(log, *publisher, message),
        ClaimCommand::Claim { publisher, size } => run_claim(log, *publisher, *size),
        ClaimCommand::Commit { publisher, payload } => run_commit(log, *publisher, payload),
        ClaimCommand::Abort { publisher } => run_abort(log, *publisher),
    }
}

/// Runs the commands in order, and puts what became of each behind one another into this list, which has room for all.
pub fn answer_all<L: Claims>(
    mut answers: Vec<ClaimAnswer>,
    log: &mut L,
    commands: &[ClaimCommand],
) -> Vec<ClaimAnswer>
    requires empty { answers.items ≡ [] }
    requires room { length commands.now ≤ vec_capacity answers }
    ensures answers { result.items ≡ answers_of (L.stream log.old) commands.now }
    ensures after { L.stream log.new ≡ after_all (L.stream log.old) commands.now }
{
    for command in commands {
        answers.push_reserved(run_one(log, command));
    }
    answers
}

/// Runs the commands in order, and tells what became of each. All memory is asked for at first: where there is none, nothing
/// happened to the log.
pub fn run_claims<L: Claims>(
    alloc: Global,
    log: &mut L,
    commands: &[ClaimCommand],
) -> Result<Vec<ClaimAnswer>, AllocError>
    ensures answers { IfOk result (λ answers. answers.items ≡ answers_of (L.stream log.old) commands.now) }
    ensures after { OnOk result (L.stream log.new ≡ after_all (L.stream log.old) commands.now) }
    ensures same { OnErr result (L.stream log.new ≡ L.stream log.old) }
{
    let answers = Vec::with_capacity(alloc, commands.len())?;
    Ok(answer_all(answers, log, commands))
}
