ghost use Rattle.std.specs.Prelude.{◌≡◌, ◌≤◌, List, length, IfSome, IfNone};
ghost use Rattle.theory.specs.Placed.{Among, Placed};
ghost use Rattle.frame_source.specs.Sources.{FindsNone, HasFrame, MayReread, Passes, ReadsNext, Rereads, Source};

use block::Block;
use position::FrameHead;

/// A reader of a log's committed frames. Others may add frames to the log between two calls, and during one.
pub trait FrameSource<L> {
    ghost source: { Self → L → Source };

    /// What may have become of the frames during a call.
    ghost grown: { List Placed → List Placed → Type 0 };

    /// It reads this log.
    ghost stands: { Self → L → Type 0 };

    /// It has read the frame at its position since it moved last.
    ghost has_read: { Self → L → Type 0 };

    /// What its calls leave of it and of the log.
    ghost leaves: { Self → L → Self → L → Type 0 };

    /// What a call that finds no frame has done to say so. Where others store the frames' words it looked, in that very call.
    ghost looked: { Self → Self → Type 0 } = { λ _ _. Unit {0} };

    /// Reads the frame that is committed at the reader's position: a message's part is copied to the block's front, and
    /// the reader stays. There is none where the frame that begins there isn't known to be committed.
    fn next(&mut self, log: &mut L, block: &mut Block) -> Option<FrameHead>
        requires stands { stands self.old log.old }
        requires room { (source self.old log.old).identity.geometry.mtu ≤ length block.old }
        ensures same_length { length block.new ≡ length block.old }
        ensures found { IfSome result (λ head. ReadsNext grown (source self.old log.old) head block.old (source self.new log.new) block.new) }
        ensures read { IfSome result (λ _. has_read self.new log.new) }
        ensures none { IfNone result (FindsNone (source self.old log.old) block.old (source self.new log.new) block.new) }
        ensures looked { IfNone result (looked self.old self.new) }
        ensures leaves { leaves self.old log.old self.new log.new }
        ensures stands { stands self.new log.new };

    /// Moves the reader past the frame that it has read. The answer is its new position.
    fn advance(&mut self, log: &mut L) -> u64
        requires stands { stands self.old log.old }
        requires here { HasFrame (source self.old log.old) (source self.old log.old).position }
        requires read { has_read self.old log.old }
        ensures passes { Passes (source self.old log.old) result (source self.new log.new) }
        ensures leaves { leaves self.old log.old self.new log.new }
        ensures stands { stands self.new log.new };

    /// Reads a frame again that the reader has passed, within three quarters of a term below it: a message's part is
    /// copied to the block's front.
    fn reread(&mut self, log: &mut L, position: u64, block: &mut Block) -> FrameHead
        requires stands { stands self.old log.old }
        requires room { (source self.old log.old).identity.geometry.mtu ≤ length block.old }
        requires may { MayReread (source self.old log.old) position }
        ensures same_length { length block.new ≡ length block.old }
        ensures again { Rereads (source self.old log.old) position result block.old (source self.new log.new) block.new }
        ensures leaves { leaves self.old log.old self.new log.new }
        ensures stands { stands self.new log.new };

    /// Frames may stay as they are.
    ghost grown_same: { (frames : List Placed) → grown frames frames };

    /// What may become of them in two calls may become of them in one.
    ghost grown_on: { (a b c : List Placed) → grown a b → grown b c → grown a c };

    /// Frames that are known to be committed stay so.
    ghost grown_keeps: { (a b : List Placed) → grown a b → (frame : Placed) → Among frame a → Among frame b };

    /// Where nothing is done nothing changes.
    ghost leaves_same: { (r : Self) (l : L) → stands r l → leaves r l r l };

    /// Two calls leave what one leaves.
    ghost leaves_on: { (r : Self) (l : L) (q : Self) (m : L) (p : Self) (n : L) → leaves r l q m → leaves q m p n → leaves r l p n };
}

/// A reader of a log that nobody else changes.
pub trait Alone<L>: FrameSource<L> {
    ghost exact: { (old new : List Placed) → Self.grown old new → new ≡ old };
}
