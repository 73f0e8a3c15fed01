//! The laws.

ghost use Rattle.threads_meaning.specs.Law.{EachStepIsAnEvent, FramesAreCommitted, OpensAsModel, SharesAreClaimed, StepsAreARun};
ghost use Rattle.threads_meaning.specs.Order.{OffersInOrder, PassesAreSound, SinglesAreNext, WordsCommit};
ghost use Rattle.threads_meaning.specs.Row.{ItHappens};

/// A log that opens is an opened log of the model.
pub fn opens_as_model()
    ensures { OpensAsModel }
{}

/// Each step on the words of a log, from a state that is a log of the model, is one event of that, to a log that the state
/// after it is.
pub fn each_step_is_an_event()
    ensures { EachStepIsAnEvent }
{}

/// What a publisher's share of the log is: what the passes claimed under its number. And each frame that a pass has committed is
/// one of the log's.
pub fn shares_are_claimed()
    ensures shares { SharesAreClaimed }
    ensures frames { FramesAreCommitted }
{}

/// So whatever list of steps happened since a log opened, its words and passes are a log to which a run of the model leads,
/// by the event of each step; and the headline holds of that.
pub fn steps_are_a_run()
    ensures { StepsAreARun }
{}

/// What a step that commits is asked for is what the calls of `publication` do: an accepted offer commits its message's frames
/// one after the other, each the next of its claim; so is the one frame of a claim, with its message, or as a padding. By
/// words, the store of a frame's first word is such a step.
pub fn commits_are_in_order()
    ensures sound { PassesAreSound }
    ensures offers { OffersInOrder }
    ensures singles { SinglesAreNext }
    ensures words { WordsCommit }
{}

/// There is such a log and there are such steps: one is connected, its limit is raised, a pass is armed and adds, and the
/// frame of its claim is stored and committed.
pub fn there_are_steps()
    ensures { ItHappens }
{}
