//! The word calls of a log.

ghost use Rattle.std.specs.Prelude.{◌≡◌, []};
ghost use Rattle.log_memory.specs.Drafts.{IsDraft};
ghost use Rattle.shared_log.specs.Steps.Drafts.{IsOpenDraft, Stores};
ghost use Rattle.shared_log.specs.Steps.Handles.{IsOf, LogValue, Stepped, Took};
ghost use Rattle.shared_log.specs.Steps.Leading.{took_more, took_none};

use crate::home::Home;
use crate::publisher::Publisher;
use crate::steps::log::Log;
use log_memory::Draft;
use position::{Identity, UNFRAGMENTED, align32, first_word, header_words};
use publication::{InOrder, WordCalls};
use std::marker::Model;

/// A log, for the calls of one thread.
#[derive(Drop)]
pub struct OnLog<'a> {
    log: &'a Log,
}

impl<'a> Model for OnLog<'a> {
    ghost use Rattle.shared_log.specs.Steps.Handles.{LogValue};

    ghost Value = { LogValue };

    ghost view = { λ l. l.log.now };
}

/// Commits one of the publisher's open frames, by one step: its home is lent for that.
#[inline(always)]
fn commit(log: &Log, publisher: &mut Publisher, draft: &Draft<'_>)
    requires fits { IsOf log.now publisher.old }
    requires draft { IsDraft draft.now }
    requires open { IsOpenDraft log.now.identity draft.now publisher.old.pass }
    ensures stepped { Stepped [] publisher.old publisher.new }
    ensures told { Stores draft.now publisher.old.pass publisher.new.pass }
{
    let Some(home) = publisher.handle.home.take() else {
        unreachable!();
    };
    let region = log.commit(&mut publisher.handle.pass, home.region, draft);
    publisher.handle.home = Some(Home { region });
}

impl<'a> OnLog<'a> {
    pub fn new(log: &'a Log) -> OnLog<'a>
        ensures { result ≡ log.now }
    {
        OnLog { log }
    }
}

impl<'a> WordCalls for OnLog<'a> {
    type Pass = Publisher;

    ghost fits = { λ l p. IsOf l p };

    ghost pass_of = { λ l p. p.pass };

    ghost Id = { LogValue };

    ghost id = { λ l. l };

    ghost name = { λ p. p.pass.number };

    ghost took = { λ l p m q xs n. Took p xs n q };

    #[inline(always)]
    fn identity(&self, pass: &Publisher) -> Identity {
        let log = self.log;
        log.identity()
    }

    #[inline(always)]
    fn load_limit(&mut self, pass: &mut Publisher) -> u64 {
        self.log.see(&mut pass.handle.pass)
    }

    #[inline(always)]
    fn load_count(&mut self, pass: &mut Publisher) -> u32 {
        self.log.count(&mut pass.handle.pass)
    }

    #[inline(always)]
    fn load_tail(&mut self, pass: &mut Publisher, count: u32) -> u64 {
        self.log.arm(&mut pass.handle.pass, count)
    }

    #[inline(always)]
    fn add(&mut self, _order: &InOrder, pass: &mut Publisher, count: u32, size: u32) -> u64 {
        let log = self.log;
        let _ = log.identity();
        let (word, bytes) = log.add(&mut pass.handle.pass, count, size);
        pass.share += u64::from(bytes);
        word
    }

    #[inline(always)]
    fn load_next(&mut self, pass: &mut Publisher, count: u32) -> u64 {
        self.log.next_tail(&mut pass.handle.pass, count)
    }

    #[inline(always)]
    fn exchange_next(&mut self, pass: &mut Publisher, count: u32, from: u64) -> u64 {
        self.log.rotate(&mut pass.handle.pass, count, from)
    }

    #[inline(always)]
    fn exchange_count(&mut self, pass: &mut Publisher, count: u32) -> u32 {
        self.log.exchange_count(&mut pass.handle.pass, count)
    }

    #[inline(always)]
    fn fill_data(
        &mut self,
        _order: &InOrder,
        pass: &mut Publisher,
        start: u64,
        flags: u8,
        payload: &[u8],
    ) {
        let log = self.log;
        let identity = log.identity();
        let (second, third) = header_words(&identity, start);
        let frame_length = payload.len() as u32 + 32;
        let first = first_word(false, flags, frame_length);
        let draft = Draft {
            start,
            bytes: align32(frame_length),
            first,
            second,
            third,
            payload,
        };
        commit(log, pass, &draft);
    }

    fn fill_padding(
        &mut self,
        _order: &InOrder,
        pass: &mut Publisher,
        start: u64,
        frame_length: u32,
    ) {
        let log = self.log;
        let identity = log.identity();
        let (second, third) = header_words(&identity, start);
        let first = first_word(true, UNFRAGMENTED, frame_length);
        let draft = Draft {
            start,
            bytes: align32(frame_length),
            first,
            second,
            third,
            payload: &[],
        };
        commit(log, pass, &draft);
    }

    ghost none = { λ l p. took_none p };

    ghost more = { λ l p m q n r xs ys a b x y. took_more p q r xs ys a b x y };
}
