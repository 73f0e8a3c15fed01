//! What the words of the driver's contracts mean: definitions of terms, positions, frames, claims, images, flow
//! limits, resends and moments, and the laws that hold of them; no code.
//!
//! Each function stands for a law; it does nothing, and its contract is the law. A term id and an offset name their
//! position (`names_place`). A message's frames cover its framed length (`frames_cover_message`). A spelling is of
//! one frame, and a datagram of one list of frames (`one_spelling`). The three raw tails of a log that opens show its
//! start (`fresh_words`). An assembler gives a message exactly where a frame completes one (`whole_messages`).
//! Whatever an image is given, the frames that it holds are apart, and its high-water mark is the greatest of its
//! sources (`held_apart`); those below every consumer may be forgotten (`forgets_below`). The flow limit is the
//! greatest sum, and a group's is within it (`limit_is_greatest`). A NAK is taken exactly where it is to be
//! (`takes_exactly`). A sender's SETUP opens an image, and a SETUP has one fault at the most (`setup_opens`).
//!
//! What happens to a log, a sender and images in a run stands in `model`. `docs/DEFINITIONS.md` gives the picture of
//! both.
#![tactic(auto)]

ghost use Rattle.theory.specs.Completion.{GivesWhole};
ghost use Rattle.theory.specs.ImageLaws.{ImageAlways, IsApart, IsParted, IsMarked, MarkIsGreatest, AnswersWithout, ReachesWithout};
ghost use Rattle.theory.specs.Laws.{CoversFramed, HoldsBytes, IsClaimBounded, HasOneReading, HeaderNamesPlace, FreshShowsStart};
ghost use Rattle.theory.specs.Position.{NamesPlace};
ghost use Rattle.theory.specs.SenderLaws.{GroupWithin, LimitIsGreatest, TakesExactly, SetupOpens, HasOneFault};
ghost use Rattle.theory.specs.Wire.{HasOneSpelling};

/// The id and the offset of a place name the position, and so does a frame's header.
pub fn names_place()
    ensures place { NamesPlace }
    ensures header { HeaderNamesPlace }
{}

/// The frames of a message: what they cover, what they hold, and how much the greatest message takes.
pub fn frames_cover_message()
    ensures covers { CoversFramed }
    ensures holds { HoldsBytes }
    ensures bounded { IsClaimBounded }
{}

/// A spelling is of one frame and begins no other, and a datagram is of one list of frames.
pub fn one_spelling()
    ensures frame { HasOneSpelling }
    ensures datagram { HasOneReading }
{}

/// The words of a log that opens show its start.
pub fn fresh_words()
    ensures { FreshShowsStart }
{}

/// An assembler gives a message exactly where a piece completes one.
pub fn whole_messages()
    ensures { GivesWhole }
{}

/// Whatever frames an image is given: those that it stored never overlap, a consumer never stands inside one, and its
/// high-water mark is the greatest of its sources, and bounded.
pub fn held_apart()
    ensures apart { ImageAlways IsApart }
    ensures parted { ImageAlways IsParted }
    ensures marked { ImageAlways IsMarked }
    ensures greatest { MarkIsGreatest }
{}

/// Frames below the least consumer may be forgotten.
pub fn forgets_below()
    ensures answers { AnswersWithout }
    ensures reaches { ReachesWithout }
{}

/// The flow limit is the greatest of what was allowed, and a group's is within it and never falls.
pub fn limit_is_greatest()
    ensures greatest { LimitIsGreatest }
    ensures group { GroupWithin }
{}

/// A negative acknowledgement is taken exactly where it names a frame in range that isn't kept, and there is room.
pub fn takes_exactly()
    ensures { TakesExactly }
{}

/// A sender's SETUP opens an image of its geometry at its position; one that opens none has one fault.
pub fn setup_opens()
    ensures opens { SetupOpens }
    ensures fault { HasOneFault }
{}
