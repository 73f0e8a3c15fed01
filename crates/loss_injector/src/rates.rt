ghost use Rattle.std.specs.Prelude.{◌≡◌, ◌+◌, ◌≤◌, ◌<◌, ◌↔◌, IfOk, IsOk, Some};
ghost use Rattle.theory.specs.Loss.{IsRates, IsVerdict};
ghost use Rattle.loss_injector.specs.Texts.{rates_text};
ghost use Rattle.loss_injector.specs.Verdicts.{verdict_of};

use std::fmt;
use std::marker::Model;
use thiserror::Error;

/// How many of a thousand datagrams are dropped, repeated and held back; together at most a thousand.
#[derive(Clone, Copy, Debug, PartialEq, Eq)]
pub struct Rates {
    drop: u32,
    repeat: u32,
    hold: u32,
}

impl Model for Rates {
    ghost use Rattle.theory.specs.Loss as meant;
    ghost use Rattle.theory.specs.Loss.{IsRates};

    ghost Value = { meant.Rates };

    ghost view = { λ r. record { drop = r.drop; repeat = r.repeat; hold = r.hold } };

    ghost invariant = { λ r. IsRates (record { drop = r.drop; repeat = r.repeat; hold = r.hold }) };

    ghost inverse = { λ r. record { drop = r.drop; repeat = r.repeat; hold = r.hold } };
}

/// The rates together pass a thousand.
#[derive(Clone, Copy, Debug, PartialEq, Eq, Error)]
pub struct RatesError;

impl fmt::Display for RatesError {
    ghost output = { λ _. Some rates_text };

    fn fmt<W: fmt::Write>(&self, f: &mut fmt::Formatter<W>) -> fmt::Result {
        f.write_str(self.text())
    }
}

impl RatesError {
    /// The code and the name that a user sees.
    pub fn text(self) -> &'static str
        ensures { result.now ≡ rates_text }
    {
        "E1 rates"
    }
}

impl Rates {
    /// Rates per thousand, if their sum is at most a thousand.
    pub fn new(drop: u32, repeat: u32, hold: u32) -> Result<Rates, RatesError>
        ensures made { IfOk result (λ r. r ≡ record { drop = drop; repeat = repeat; hold = hold }) }
        ensures accepted { IsOk result ↔ (drop + repeat + hold ≤ 1000) }
    {
        let sum = u64::from(drop) + u64::from(repeat) + u64::from(hold);
        if sum > 1000 {
            return Err(RatesError);
        }
        Ok(Rates { drop, repeat, hold })
    }
}

/// What becomes of a datagram.
#[derive(Clone, Copy, Debug, PartialEq, Eq)]
pub enum Verdict {
    /// It is given.
    Pass,
    /// It is lost.
    Drop,
    /// It is given twice.
    Repeat,
    /// It is held back until a later one is given.
    Hold,
}

/// What a random word decides: its remainder by a thousand is below the first rate, below the first two, below all
/// three, or none of these.
pub fn decide(word: u32, rates: &Rates) -> Verdict
    ensures { IsVerdict rates.now word (verdict_of result) }
{
    let rest = word % 1000;
    if rest < rates.drop {
        Verdict::Drop
    } else if rest < rates.drop + rates.repeat {
        Verdict::Repeat
    } else if rest < rates.drop + rates.repeat + rates.hold {
        Verdict::Hold
    } else {
        Verdict::Pass
    }
}
