//! The kinds of seat that are dealt and joined.

ghost use Rattle.log_memory.specs.Seats.{dealt_with, joining, viewing};

use crate::view::LogView;
use atomic_table::{Join, Split};
use log_rule::{Carried, Chosen, Met};
use std::marker::PhantomData;

/// A publisher goes to a seat of its own.
pub struct DealPublisher;

impl Split<LogView> for DealPublisher {
    ghost use Rattle.log_rule.specs.Claims.Plays.{dealing_seat, dealt_seat};

    ghost left = { viewing dealing_seat };

    ghost right = { dealt_with dealt_seat };
}

/// The first consumer of a seat goes to one of its own.
pub struct DealReader;

impl Split<LogView> for DealReader {
    ghost use Rattle.log_rule.specs.Table.{reader_left, reader_right};

    ghost left = { viewing reader_left };

    ghost right = { dealt_with reader_right };
}

/// The keeper goes to a seat of its own.
pub struct DealKeeper;

impl Split<LogView> for DealKeeper {
    ghost use Rattle.log_rule.specs.Table.{keeper_left, keeper_right};

    ghost left = { viewing keeper_left };

    ghost right = { dealt_with keeper_right };
}

/// A seat has the chosen number from then on, and nothing goes to another.
pub struct Renumber<N> {
    chosen: PhantomData<N>,
}

impl<N: Chosen> Split<LogView> for Renumber<N> {
    ghost use Rattle.log_rule.specs.Claims.Closing.{numbered_seat, spent_seat};

    ghost left = { viewing (numbered_seat N.number) };

    ghost right = { dealt_with (λ w. spent_seat w.pass.identity w.pass.start) };
}

/// What a publisher committed goes to a seat of its own, to be told.
pub struct News;

impl Split<LogView> for News {
    ghost use Rattle.log_rule.specs.Table.{news_left, news_right};

    ghost left = { viewing news_left };

    ghost right = { dealt_with news_right };
}

/// What the consumers of a seat know goes to a seat of its own, to be told.
pub struct Knowledge;

impl Split<LogView> for Knowledge {
    ghost use Rattle.log_rule.specs.Table.{knowledge_right, news_left};

    ghost left = { viewing news_left };

    ghost right = { dealt_with knowledge_right };
}

/// Each of two that met has again what it had, and was shown what both were.
pub struct PartAgain<N> {
    met: PhantomData<N>,
}

impl<N: Met> Split<LogView> for PartAgain<N> {
    ghost use Rattle.log_rule.specs.Meetings.{back_left, back_right};

    ghost left = { viewing (back_left N.one) };

    ghost right = { dealt_with (back_right N.other) };
}

/// A pass goes to a new seat, while what its seat carries stays.
pub struct Lift;

impl Split<LogView> for Lift {
    ghost use Rattle.log_memory.specs.Lifted.{lifted_left, lifted_right};

    ghost left = { viewing lifted_left };

    ghost right = { dealt_with lifted_right };
}

/// It comes back to a seat that has none.
pub struct Lower<N> {
    carried: PhantomData<N>,
}

impl<N: Carried> Join<LogView> for Lower<N> {
    ghost use Rattle.log_rule.specs.Claims.Closing.{spent_seat};
    ghost use Rattle.log_memory.specs.Lifted.{lowered};
    ghost use Rattle.log_memory.specs.Seats.{spent_with};

    ghost both = { joining lowered };

    ghost spent = { spent_with (spent_seat N.identity N.start) };
}

/// A consumer is told what another seat knows.
pub struct Tell<N> {
    carried: PhantomData<N>,
}

impl<N: Carried> Join<LogView> for Tell<N> {
    ghost use Rattle.log_rule.specs.Claims.Closing.{spent_seat};
    ghost use Rattle.log_rule.specs.Table.{told_seat};
    ghost use Rattle.log_memory.specs.Seats.{spent_with};

    ghost both = { joining told_seat };

    ghost spent = { spent_with (spent_seat N.identity N.start) };
}

/// A consumer goes back to the keeper's seat.
pub struct Return<N> {
    carried: PhantomData<N>,
}

impl<N: Carried> Join<LogView> for Return<N> {
    ghost use Rattle.log_rule.specs.Claims.Closing.{spent_seat};
    ghost use Rattle.log_rule.specs.Table.{returned_seat};
    ghost use Rattle.log_memory.specs.Seats.{spent_with};

    ghost both = { joining returned_seat };

    ghost spent = { spent_with (spent_seat N.identity N.start) };
}

/// What another seat has goes to a seat.
pub struct GatherSeat<N> {
    carried: PhantomData<N>,
}

impl<N: Carried> Join<LogView> for GatherSeat<N> {
    ghost use Rattle.log_rule.specs.Claims.Closing.{both_seats, spent_seat};
    ghost use Rattle.log_memory.specs.Seats.{spent_with};

    ghost both = { joining both_seats };

    ghost spent = { spent_with (spent_seat N.identity N.start) };
}

/// What another seat has goes to a seat, whose publisher owns what the other's claimed.
pub struct HandOver<N> {
    carried: PhantomData<N>,
}

impl<N: Carried> Join<LogView> for HandOver<N> {
    ghost use Rattle.log_rule.specs.Claims.Closing.{handing_seats, spent_seat};
    ghost use Rattle.log_memory.specs.Seats.{spent_with};

    ghost both = { joining handing_seats };

    ghost spent = { spent_with (spent_seat N.identity N.start) };
}

/// A seat has what two publishers have that meet.
pub struct Meet<N> {
    carried: PhantomData<N>,
}

impl<N: Carried> Join<LogView> for Meet<N> {
    ghost use Rattle.log_rule.specs.Claims.Closing.{spent_seat};
    ghost use Rattle.log_rule.specs.Meetings.{meeting_seats};
    ghost use Rattle.log_memory.specs.Seats.{spent_with};

    ghost both = { joining meeting_seats };

    ghost spent = { spent_with (spent_seat N.identity N.start) };
}
