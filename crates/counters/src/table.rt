ghost use Rattle.std.specs.Prelude.{◌≡◌, [], ◌∷◌, IfOk};
ghost use Rattle.crossbeam_utils.specs.Seq.{IsSamePass, cell_view};
ghost use Rattle.counters.specs.Order.{IsInOrder, IsAtMost, IsAmong, zeros};
ghost use Rattle.counters.specs.Rule.{IsSeen};

use crate::hand::{CellPass, Hears, Puts, RuledCell, Sees, Tells};
use crate::parties::{CounterReader, CounterWriter};
use crate::readings::Readings;
use std::alloc::{AllocError, Global};
use std::marker::Model;
use std::sync::Wait;

/// The three counters, which the writer and its readers share by reference.
#[derive(Drop)]
pub struct Counters {
    cell: RuledCell,
}

impl Model for Counters {
    ghost use Rattle.atomic_table.specs.Seated.{TableId, table_id_coded};

    ghost Value = { TableId };

    ghost coded = { table_id_coded };

    ghost view = { λ c. c.cell.table.shared.table_id };
}

impl Counters {
    /// Counters that stand at zero, and their one writer. The error comes only where memory was refused.
    pub fn new(alloc: Global) -> Result<(Counters, CounterWriter), AllocError>
        ensures { IfOk result (λ r. r.1 ≡ record { counters = r.0; last = zeros; published = zeros ∷ [] }) }
    {
        let nothing = Readings {
            least: 0,
            rebuilt: 0,
            high_water: 0,
        };
        let (cell, seat) = RuledCell::ruled(alloc, nothing)?;
        Ok((Counters { cell }, CounterWriter { seat }))
    }

    /// A reader, whose readings are no less than what the writer has published so far.
    pub fn reader(&self, writer: &mut CounterWriter) -> CounterReader
        requires { writer.old.counters ≡ self.now }
        ensures writer { writer.new ≡ writer.old }
        ensures reader { result ≡ record { counters = self.entry.now; last = writer.old.last; told = writer.old.last } }
    {
        CounterReader {
            seat: self.cell.split_pass::<Tells>(&mut writer.seat),
        }
    }

    /// Publishes the three positions together, in place of those that were published last.
    pub fn publish<R: Wait>(&self, rt: &R, writer: &mut CounterWriter, readings: Readings)
        requires counters { writer.old.counters ≡ self.now }
        requires order { IsInOrder readings }
        requires not_back { IsAtMost writer.old.last readings }
        ensures { writer.new ≡ record writer.old { last = readings; published = readings ∷ writer.old.published } }
    {
        self.cell.swap_as::<Puts, R>(rt, &mut writer.seat, readings);
    }

    fn see<R: Wait>(&self, rt: &R, pass: &mut CellPass) -> Readings
        requires { pass.old.table_id ≡ self.now }
        ensures pass { IsSamePass pass.old pass.new }
        ensures seen { IsSeen (cell_view pass.old) result result (cell_view pass.new) }
    {
        self.cell.load_as::<Sees, R>(rt, pass)
    }

    /// Reads the three positions together, as they were published: each is no less than in the reader's last reading,
    /// and no less than what it was told.
    pub fn read<R: Wait>(&self, rt: &R, reader: &mut CounterReader) -> Readings
        requires { reader.old.counters ≡ self.now }
        ensures order { IsInOrder result }
        ensures not_back { IsAtMost reader.old.last result }
        ensures told { IsAtMost reader.old.told result }
        ensures reader { reader.new ≡ record reader.old { last = result } }
    {
        self.see(rt, &mut reader.seat)
    }

    /// Tells the reader what the writer has published last: its readings are no less from now on.
    pub fn learn(&self, reader: &mut CounterReader, writer: &mut CounterWriter)
        requires reader { reader.old.counters ≡ self.now }
        requires writer { writer.old.counters ≡ self.now }
        ensures writer { writer.new ≡ writer.old }
        ensures reader { reader.new ≡ record reader.old { told = writer.old.last } }
    {
        let report = self.cell.split_pass::<Tells>(&mut writer.seat);
        self.cell.join_pass::<Hears>(&mut reader.seat, report);
    }

    /// Shows that what the reader read last is one of those that were published, and no more than the last of them.
    /// Before anything was published it is the zeros.
    pub fn confirm<R: Wait>(&self, rt: &R, reader: &mut CounterReader, writer: &mut CounterWriter)
        requires reader { reader.old.counters ≡ self.now }
        requires writer { writer.old.counters ≡ self.now }
        ensures reader { reader.new ≡ reader.old }
        ensures writer { writer.new ≡ writer.old }
        ensures published { IsAmong reader.old.last writer.old.published }
        ensures no_more { IsAtMost reader.old.last writer.old.last }
    {
        let report = self.cell.split_pass::<Tells>(&mut reader.seat);
        self.cell.join_pass::<Hears>(&mut writer.seat, report);
        self.see(rt, &mut writer.seat);
    }

    /// Reads while the writer publishes nothing: the reading is what the writer has published last.
    pub fn read_with<R: Wait>(
        &self,
        rt: &R,
        reader: &mut CounterReader,
        writer: &mut CounterWriter,
    ) -> Readings
        requires reader { reader.old.counters ≡ self.now }
        requires writer { writer.old.counters ≡ self.now }
        ensures value { result ≡ writer.old.last }
        ensures not_back { IsAtMost reader.old.last result }
        ensures reader { reader.new ≡ record reader.old { last = result; told = result } }
        ensures writer { writer.new ≡ writer.old }
    {
        self.learn(reader, writer);
        let readings = self.read(rt, reader);
        self.confirm(rt, reader, writer);
        readings
    }
}
