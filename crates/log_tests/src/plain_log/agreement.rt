//! Which part of a stream its publishers' commands don't see, and two logs that differ in that part alone.

ghost use Rattle.std.specs.Prelude.{◌≡◌, IfOk, OnErr, OnOk};
ghost use Rattle.one_hand.specs.Commands.{after_all, answers_of};
ghost use Rattle.log_tests.specs.Agreements.{AlwaysAgain, AlwaysSameAnswers, IsSameBut};

use one_hand::{ClaimAnswer, ClaimCommand, Claims, answer_all};
use std::alloc::{AllocError, Global};

/// Of two streams that differ in nothing but their consumers, any commands give the same answers, and make two streams that
/// again differ in nothing but their consumers. It does nothing.
pub fn runs_agree()
    ensures answers { AlwaysSameAnswers }
    ensures again { AlwaysAgain }
{}

/// Runs the commands on two logs whose streams differ in nothing but their consumers. Both give the same answers, and their
/// streams have the same entries then. All memory is asked for at first: where there is none, nothing happened to either.
pub fn run_on_both<L: Claims, M: Claims>(
    alloc: Global,
    one: &mut L,
    other: &mut M,
    commands: &[ClaimCommand],
) -> Result<(Vec<ClaimAnswer>, Vec<ClaimAnswer>), AllocError>
    requires same { IsSameBut (L.stream one.old) (M.stream other.old) }
    ensures answers { IfOk result (λ r. (r.0.items ≡ answers_of (L.stream one.old) commands.now) × (r.1.items ≡ r.0.items)) }
    ensures after { OnOk result ((L.stream one.new ≡ after_all (L.stream one.old) commands.now) × IsSameBut (L.stream one.new) (M.stream other.new)) }
    ensures same { OnErr result ((L.stream one.new ≡ L.stream one.old) × (M.stream other.new ≡ M.stream other.old)) }
{
    let for_one = Vec::with_capacity(alloc, commands.len())?;
    let for_other = Vec::with_capacity(alloc, commands.len())?;
    let of_one = answer_all(for_one, one, commands);
    let of_other = answer_all(for_other, other, commands);
    runs_agree();
    Ok((of_one, of_other))
}
