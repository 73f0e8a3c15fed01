//! A subscriber's reader, and the tally of what it polled.

ghost use Rattle.std.specs.Prelude.{◌≡◌, ◌≤◌, ◌<◌, ◌+◌, ◌^◌, false, IfOk};
ghost use Rattle.image.specs.Handles.{misses_of};
ghost use Rattle.receiver.specs.CoreLives.{HasDealt};
ghost use Rattle.receiver.specs.Reading.{IsImage};
ghost use Rattle.run_parties.specs.Receptions.{IsBegun, PolledOf};

use crate::tally::Tally;
use assembler::AssemblyError;
use endpoint::DeviceError;
use receiver::{MessageReader, ReceiverCore};
use std::marker::Model;

/// How many messages are polled in one turn, at the most.
const MESSAGES: u64 = 16;

/// A reader of an image, the tally of the messages that it gave, and how many were refused as too long. That count stays at the
/// greatest `u64`.
#[derive(Drop)]
pub struct Poller {
    reader: MessageReader,
    tally: Tally,
    refused: u64,
}

impl Model for Poller {
    ghost use Rattle.run_parties.specs.Receptions.{HasPolled, PollerState};

    ghost Value = { PollerState };

    ghost view = { λ p. record { reader = p.reader; tally = p.tally; refused = p.refused } };

    ghost invariant = { λ p. HasPolled (record { reader = p.reader; tally = p.tally; refused = p.refused }) };
}

impl Poller {
    /// One that has polled nothing.
    pub fn new(reader: MessageReader) -> Poller
        requires { IsBegun reader }
        ensures reader { result.reader ≡ reader }
        ensures none { result.tally.polled ≡ 0 }
    {
        Poller {
            reader,
            tally: Tally::new(),
            refused: 0,
        }
    }

    /// How many messages were tallied.
    pub fn polled(&self) -> u64
        ensures { result ≡ self.now.tally.polled }
    {
        self.tally.polled()
    }

    /// Polls once, and tallies the message that this gives. The answer is whether there was a message; one that is refused as
    /// too long is one here, and not in the tally; where there was none, the reader has looked. The fault is `Memory`, where
    /// memory was refused.
    fn poll(&mut self) -> Result<bool, DeviceError>
        requires room { self.old.tally.polled < 2 ^ 63 }
        ensures most { self.new.tally.polled ≤ self.old.tally.polled + 1 }
        ensures image { self.new.reader.image ≡ self.old.reader.image }
        ensures looked { IfOk result (λ some. some ≡ false → misses_of self.new.reader.seat ≡ misses_of self.old.reader.seat + 1) }
    {
        match self.reader.next() {
            Ok(Some(message)) => {
                self.tally.take(&message.bytes);
                self.reader.pass();
                Ok(true)
            }
            Ok(None) => Ok(false),
            Err(error) => {
                self.refused = self.refused.saturating_add(1);
                match error {
                    AssemblyError::TooLong => Ok(true),
                    AssemblyError::Memory => Err(DeviceError::Memory),
                }
            }
        }
    }

    /// Polls until there is no message, 16 were there, or as many are tallied as are wanted. The answer is whether there was
    /// one; where there was none, the reader has looked once and found no frame.
    pub fn poll_some(&mut self, wanted: u64) -> Result<bool, DeviceError>
        requires few { self.old.tally.polled ≤ wanted }
        requires room { wanted < 2 ^ 63 }
        ensures few { self.new.tally.polled ≤ wanted }
        ensures image { self.new.reader.image ≡ self.old.reader.image }
        ensures looked { IfOk result (λ some. some ≡ false → misses_of self.new.reader.seat ≡ misses_of self.old.reader.seat + 1) }
    {
        let most = (wanted - self.tally.polled()).min(MESSAGES);
        for count in 0..most {
            if !self.poll()? {
                return Ok(count > 0);
            }
        }
        Ok(true)
    }

    /// Meets the core of its image. What was tallied are messages of frames that the image has stored.
    pub fn end(mut self, core: &mut ReceiverCore) -> (Tally, u64)
        requires { IsImage core.old.image self.reader.image }
        ensures polled { PolledOf core.new.image result.0 result.1 }
        ensures dealt { HasDealt core.old.image core.new.image }
        ensures core { core.new ≡ record core.old { image = core.new.image } }
        ensures tally { result.0 ≡ self.tally }
    {
        self.reader.meet(core);
        (self.tally, self.refused)
    }
}
