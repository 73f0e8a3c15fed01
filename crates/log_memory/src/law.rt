//! What the rule says, and what each kind of step is.

ghost use Rattle.log_memory.specs.Law.{SeatsKeep, StepsKeep};
ghost use Rattle.log_memory.specs.Found.{PartsAreFound};

/// Each kind of step, whatever stands when it happens, keeps the rule, and tells of its seat what
/// its call says.
#[inline(always)]
pub fn steps_keep()
    ensures { StepsKeep }
{}

/// Each kind of seat that is dealt or joined, and each load that tells a pass of itself, keeps the
/// rule.
pub fn seats_keep()
    ensures { SeatsKeep }
{}

/// A reader that found a frame where it stands carries its part of that in front, and may give it
/// back; so does one that loaded the word of a frame that it has.
#[inline(always)]
pub fn parts_are_found()
    ensures { PartsAreFound }
{}
