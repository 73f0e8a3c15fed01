//! A reader is told what a publisher committed.

ghost use Rattle.std.specs.Prelude.{◌≡◌};
ghost use Rattle.shared_log.specs.Steps.Handles.{IsOf};
ghost use Rattle.shared_log.specs.Readers.{IsAlone, IsReaderOf, Learns};

use crate::publisher::Publisher;
use crate::reader::LogReader;
use crate::steps::log::Log;

/// Tells a reader each frame that a publisher has committed: it finds these, and never none, where
/// they are.
pub fn learn(log: &Log, reader: &mut LogReader, publisher: &mut Publisher)
    requires fits { IsReaderOf log.now reader.old }
    requires publisher { IsOf log.now publisher.old }
    ensures learns { Learns reader.old publisher.old.pass reader.new }
    ensures alone { IsAlone log.now reader.old → IsAlone log.now reader.new }
    ensures same { publisher.new ≡ publisher.old }
{
    log.learn(&mut reader.handle.pass, &mut publisher.handle.pass);
}
