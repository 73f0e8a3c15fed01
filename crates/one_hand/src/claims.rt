//! The publishing side of a log that one hand holds.

ghost use Rattle.std.specs.Prelude.{◌≡◌, ◌<◌, ◌≤◌, None, Some, Ok, Err, IfOk, IfErr, IsSome, length};
ghost use Rattle.std.specs.Option.{option_map};
ghost use Rattle.theory.specs.Position.{IsGeometry, max_message, max_payload};
ghost use Rattle.one_hand.specs.Legal.{IsStream};
ghost use Rattle.one_hand.specs.Stream.{Aborts, Commits, OpenClaim, Stream, after_claim, after_offer, answer_of, claim_by};

pub(crate) mod claim_command;
pub(crate) mod running;

use position::Geometry;
use publication::Refusal;

/// A log of which one hand holds every publisher, eight of them. What a call does is seen of the stream before and after.
pub trait Claims {
    ghost stream: { Self → Stream };

    /// The shape of the stream.
    fn geometry(&self) -> Geometry
        ensures value { result ≡ (stream self.now).identity.geometry }
        ensures legal { IsGeometry result };

    /// What holds of every log between two calls. It does nothing.
    fn is_whole(&self)
        ensures { IsStream (stream self.now) };

    /// The size of the message for which the publisher has a claim open.
    fn claimed(&self, publisher: usize) -> Option<u32>
        requires { publisher < 8 }
        ensures { result ≡ option_map (λ (c : OpenClaim). c.size) (claim_by (stream self.now) publisher) };

    /// Publishes a message of up to the greatest length. It is accepted if the log isn't closed, the active term isn't used
    /// up, the tail is below the limit and the message's frames fit the rest of the term; the answer is then the position
    /// behind them. A message that doesn't fit leaves a padding up to the term's end, and the log turns to the next term.
    fn offer(&mut self, publisher: usize, message: &[u8]) -> Result<u64, Refusal>
        requires publisher { publisher < 8 }
        requires free { claim_by (stream self.old) publisher ≡ None }
        requires short { length message.now ≤ max_message (stream self.old).identity.geometry }
        ensures answer { result ≡ answer_of (stream self.old) (length message.now) }
        ensures after { stream self.new ≡ after_offer (stream self.old) publisher message.now };

    /// Claims a range for a message of `size` bytes, up to the greatest payload of a frame. It is accepted where an offer of
    /// such a message would be, and refused as that is. The answer is where the range begins and ends.
    fn claim(&mut self, publisher: usize, size: u32) -> Result<(u64, u64), Refusal>
        requires publisher { publisher < 8 }
        requires free { claim_by (stream self.old) publisher ≡ None }
        requires short { size ≤ max_payload (stream self.old).identity.geometry }
        ensures begins { IfOk result (λ range. range.0 ≡ (stream self.old).tail) }
        ensures accepted { IfOk result (λ range. answer_of (stream self.old) size ≡ Ok range.1) }
        ensures refused { IfErr result (λ refusal. answer_of (stream self.old) size ≡ Err refusal) }
        ensures after { stream self.new ≡ after_claim (stream self.old) publisher size };

    /// Commits the publisher's open claim with a payload of the size that was claimed. The answer is the position behind it.
    fn commit(&mut self, publisher: usize, payload: &[u8]) -> u64
        requires publisher { publisher < 8 }
        requires claimed { option_map (λ (c : OpenClaim). c.size) (claim_by (stream self.old) publisher) ≡ Some (length payload.now) }
        ensures { Commits (stream self.old) publisher payload.now result (stream self.new) };

    /// Makes the publisher's open claim a padding, whose bytes count to the publisher. The answer is the position behind it.
    fn abort(&mut self, publisher: usize) -> u64
        requires publisher { publisher < 8 }
        requires claimed { IsSome (claim_by (stream self.old) publisher) }
        ensures { Aborts (stream self.old) publisher result (stream self.new) };
}
