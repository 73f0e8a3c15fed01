//! A reader and the inserter meet: each is told what the other knows. So where one hand has both, each call finds what the last
//! one left: what was only known to grow stands still.

ghost use Rattle.std.specs.Prelude.{◌≡◌, ℕ, [], List, IfNone, IfSome};
ghost use Rattle.image.specs.Handles.{IsReaderOf};
ghost use Rattle.image.specs.Meeting.{Meets, AreAlone, PassesFrame, StandsAtEnd};
ghost use Rattle.image.specs.Rebuilding.{IsInserterOf};

use crate::handler::FrameHandler;
use crate::inserter::Inserter;
use crate::reader::ImageReader;
use crate::reader::reading::{advance, read_with};
use crate::words::Image;
use image_rule::{Attend, Confirm, Findings, News, Settle, Tell};
use position::FrameHead;

/// Tells a reader each frame that was stored so far, so that it finds these, and never none, where they begin; and the
/// inserter where that reader stands. What the inserter had seen of it since they met before is then where it stands, too, if
/// it hasn't moved.
pub fn meet(image: &Image, reader: &mut ImageReader, inserter: &mut Inserter)
    requires reader { IsReaderOf image.now reader.old }
    requires inserter { IsInserterOf image.now inserter.old }
    ensures fits { IsReaderOf image.now reader.new }
    ensures met { Meets inserter.old reader.old inserter.new reader.new }
{
    let _ = inserter.words.floor();
    let store = &mut inserter.words;
    let _ = &image.words;
    let _ = &store.hand;
    let _ = &reader.standing;
    let words = &image.words.table.shared;
    let hand = &mut store.hand;
    let standing = &mut reader.standing;
    let news = words.split_seat::<News>(&mut hand.seat);
    words.join_seat::<Tell>(&mut standing.seat, news);
    words.load::<Settle>(&mut standing.seat, 0);
    let findings = words.split_seat::<Findings>(&mut standing.seat);
    words.join_seat::<Attend>(&mut hand.seat, findings);
    words.load::<Confirm>(&mut hand.seat, 0);
}

/// Hands the frame where the reader stands to who takes it, its payload where it lies, and moves the reader past it. There is
/// none exactly where it stands at the contiguous end: then it has looked there once more, and nothing is handed over.
pub fn read_past_with<H: FrameHandler>(
    image: &Image,
    inserter: &mut Inserter,
    reader: &mut ImageReader,
    handler: &mut H,
) -> Option<FrameHead>
    requires alone { AreAlone image.now inserter.old reader.old }
    ensures none { IfNone result (StandsAtEnd inserter.old reader.old [] inserter.new reader.new []
        × (handler.new ≡ handler.old)) }
    ensures read { IfSome result (λ head. (payload : List ℕ) × PassesFrame inserter.old reader.old
        head payload inserter.new reader.new × H.takes handler.old head payload handler.new) }
    ensures alone { AreAlone image.now inserter.new reader.new }
{
    let _ = inserter.rebuilt();
    meet(image, reader, inserter);
    let Some(head) = read_with(image, reader, handler) else {
        return None;
    };
    let _ = advance(image, reader);
    meet(image, reader, inserter);
    Some(head)
}
