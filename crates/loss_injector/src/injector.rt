ghost use Rattle.std.specs.Prelude.{◌≡◌, ℕ, List, None, Some, map, IsOk, IfOk, IfErr, OnErr, OnOk};
ghost use Rattle.theory.specs.Loss.{IsVerdict};
ghost use Rattle.theory.specs.Loss as meant;
ghost use Rattle.loss_injector.specs.Injecting.{Gives, IsKeeping};
ghost use Rattle.loss_injector.specs.Ways.{given_by, keeping};

use crate::rates::{Rates, Verdict, decide};
use std::alloc::{AllocError, Global};
use std::marker::Model;

/// What becomes of a datagram.
#[derive(Drop)]
pub enum Way {
    /// It is lost.
    Nowhere,
    /// It is held back.
    Kept,
    /// It goes, once or twice, and behind it what was held.
    Goes {
        twice: bool,
        behind: Option<Vec<u8>>,
    },
}

/// Drops, repeats and holds back datagrams. At most one is held.
#[derive(Drop)]
pub struct Injector {
    alloc: Global,
    rates: Rates,
    held: Option<Vec<u8>>,
}

impl Model for Injector {
    ghost use Rattle.std.specs.Option.{option_map};
    ghost use Rattle.loss_injector.specs.Injecting.{Injecting};

    ghost Value = { Injecting };

    ghost view = { λ i. record { rates = i.rates; held = option_map (λ d. d.items) i.held } };
}

impl Injector {
    /// An injector that holds nothing.
    pub fn new(alloc: Global, rates: Rates) -> Injector
        ensures { result ≡ record { rates = rates; held = None } }
    {
        Injector {
            alloc,
            rates,
            held: None,
        }
    }

    /// Decides what becomes of a datagram that comes with this random word, which needs no memory. A held one goes behind
    /// the first that goes.
    pub fn way(&mut self, word: u32) -> Way
        ensures gives { (datagram : List ℕ) → Gives self.old word datagram (given_by result datagram) (keeping result datagram self.new) }
        ensures keeps { result ≡ Way.Kept → IsKeeping self.old word × (self.new ≡ self.old) }
    {
        match decide(word, &self.rates) {
            Verdict::Drop => Way::Nowhere,
            Verdict::Hold if self.held.is_none() => Way::Kept,
            verdict => Way::Goes {
                twice: verdict == Verdict::Repeat,
                behind: self.held.take(),
            },
        }
    }

    /// Holds a copy of a datagram. Where memory is refused nothing has changed.
    pub fn keep(&mut self, datagram: &[u8]) -> Result<(), AllocError>
        ensures kept { OnOk result (self.new ≡ record self.old { held = Some datagram.now }) }
        ensures refused { OnErr result (self.new ≡ self.old) }
    {
        self.held = Some(Vec::from_slice(self.alloc, datagram)?);
        Ok(())
    }

    /// Takes a datagram and a random word, and gives what goes on its way now, in order. Where nothing does, no memory
    /// is wanted. After an error the held datagram stays, and the one handed in is given to nobody.
    pub fn push(&mut self, datagram: Vec<u8>, word: u32) -> Result<Vec<Vec<u8>>, AllocError>
        ensures given { IfOk result (λ out. Gives self.old word datagram.items (map (λ d. d.items) out.items) self.new) }
        ensures dropped { IsVerdict self.old.rates word meant.Drop → IsOk result }
        ensures held_back { IsVerdict self.old.rates word meant.Hold → self.old.held ≡ None → IsOk result }
        ensures refused { IfErr result (λ _. self.new ≡ self.old) }
    {
        let verdict = decide(word, &self.rates);
        if verdict == Verdict::Drop {
            return Ok(Vec::new(self.alloc));
        }
        if verdict == Verdict::Hold && self.held.is_none() {
            self.held = Some(datagram);
            return Ok(Vec::new(self.alloc));
        }
        let mut out = Vec::with_capacity(self.alloc, 3)?;
        if verdict == Verdict::Repeat {
            out.push(Vec::from_slice(self.alloc, &datagram)?).unwrap();
        }
        out.push(datagram).unwrap();
        if let Some(held) = self.held.take() {
            out.push(held).unwrap();
        }
        Ok(out)
    }
}
