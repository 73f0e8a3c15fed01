//! A pass in another role: a publisher's as a reader or as the keeper, and back. Whoever has more
//! than one role in one pass, as the one that has all, acts in one after the other.

ghost use Rattle.std.specs.Prelude.{◌≡◌};
ghost use Rattle.shared_log.specs.Handles.{IsPublishing};
ghost use Rattle.shared_log.specs.Keepers.{IsKeeping, KnowsWho};
ghost use Rattle.shared_log.specs.Readers.{IsReading};

use crate::keeper::Keeper;
use crate::publisher::Publisher;
use crate::reader::LogReader;

impl Publisher {
    /// Its pass as one of its consumers, by the place among them: the reader with this number,
    /// which stands at a position and has read nothing there.
    pub fn into_reader(self, place: u64, number: u64, position: u64) -> LogReader
        requires { IsReading self.pass place number position position }
        ensures { result ≡ record {
          held = self;
          place = place;
          number = number;
          position =
              position;
          read_to = position;
        } }
    {
        let Publisher {
            handle,
            number: _,
            share: _,
        } = self;
        LogReader {
            handle,
            place,
            number,
            position,
            read_to: position,
        }
    }

    /// Its pass as the keeper, with the limit word that it knows, how far it has cleaned, and which
    /// consumers are there.
    pub fn into_keeper(self, limit: u64, cleaned: u64, there: [bool; 8]) -> Keeper
        requires keeps { IsKeeping self.pass limit cleaned }
        requires knows { KnowsWho self.pass there }
        ensures { result ≡ record { held = self; limit = limit; cleaned = cleaned } }
    {
        let Publisher {
            handle,
            number: _,
            share: _,
        } = self;
        Keeper {
            handle,
            limit,
            cleaned,
            there,
        }
    }
}

impl LogReader {
    /// Its pass as a publisher, of this number and share.
    pub fn into_publisher(self, number: u64, share: u64) -> Publisher
        requires { IsPublishing self.held.pass number share }
        ensures { result ≡ self.held }
    {
        let LogReader {
            handle,
            place: _,
            number: _,
            position: _,
            read_to: _,
        } = self;
        Publisher {
            handle,
            number,
            share,
        }
    }
}

impl Keeper {
    /// Its pass as a publisher, of this number and share.
    pub fn into_publisher(self, number: u64, share: u64) -> Publisher
        requires { IsPublishing self.held.pass number share }
        ensures { result ≡ self.held }
    {
        let Keeper {
            handle,
            limit: _,
            cleaned: _,
            there: _,
        } = self;
        Publisher {
            handle,
            number,
            share,
        }
    }
}
