use crate::hand::CellPass;
use std::marker::Model;

/// The one who publishes. It may go to a thread of its own.
#[derive(Drop)]
pub struct CounterWriter {
    pub(crate) seat: CellPass,
}

impl Model for CounterWriter {
    ghost use Rattle.std.specs.Prelude.{◌≡◌, true};
    ghost use Rattle.crossbeam_utils.specs.Seq.{cell_view};
    ghost use Rattle.counters.specs.Parties.{WriterSeen};

    ghost Value = { WriterSeen };

    ghost view = { λ w. record { counters = w.seat.table_id; last = (cell_view w.seat).known; published = (cell_view w.seat).past } };

    ghost invariant = { λ w. (cell_view w.seat).publishes ≡ true };
}

/// One who reads. It may go to a thread of its own.
#[derive(Drop)]
pub struct CounterReader {
    pub(crate) seat: CellPass,
}

impl Model for CounterReader {
    ghost use Rattle.std.specs.Prelude.{◌≡◌, false};
    ghost use Rattle.crossbeam_utils.specs.Seq.{cell_view};
    ghost use Rattle.counters.specs.Parties.{ReaderSeen};

    ghost Value = { ReaderSeen };

    ghost view = { λ r. record { counters = r.seat.table_id; last = (cell_view r.seat).known; told = (cell_view r.seat).told } };

    ghost invariant = { λ r. (cell_view r.seat).publishes ≡ false };
}
