//! What a call picks for its step. It exists in the proofs alone.

ghost use Rattle.std.specs.Prelude.{ℕ};
ghost use Rattle.theory.specs.Bytes.{Identity};
ghost use Rattle.publication.specs.declared.pass.Pass as passes;
ghost use Rattle.log_rule.specs.Claims.Closing.{no_identity};
ghost use Rattle.log_rule.specs.Claims.Plays.{newcomer};

use std::marker::Brand;

/// A number that a call picks for its step.
pub trait Chosen {
    ghost number: { ℕ };
}

impl Chosen for Brand {
    ghost number = { 0 };
}

/// A consumer of the keeper's own pass, which a call picks for its step: its number, and its place among those of the pass.
pub trait Seated {
    ghost number: { ℕ };

    ghost place: { ℕ };
}

impl Seated for Brand {
    ghost number = { 0 };

    ghost place = { 0 };
}

/// The stream of a log, which a call picks for its step.
pub trait Carried {
    ghost identity: { Identity };

    ghost start: { ℕ };
}

impl Carried for Brand {
    ghost identity = { no_identity };

    ghost start = { 0 };
}

/// Two passes that meet, which a call picks for its steps.
pub trait Met {
    ghost one: { passes.Pass };

    ghost other: { passes.Pass };
}

impl Met for Brand {
    ghost one = { newcomer no_identity 0 0 0 };

    ghost other = { newcomer no_identity 0 0 0 };
}
