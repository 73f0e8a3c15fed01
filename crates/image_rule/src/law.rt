//! What the rule says, what it says of a consumer at a look, and what each kind of step is to the stream.

ghost use Rattle.image_rule.specs.Law.{EndsWithoutBit, StepsAreEvents};
ghost use Rattle.image_rule.specs.Says.{RuleSays};

/// Whatever words and seats an image's table has: the frames that were stored never overlap; from the position on to which
/// it is cleared each stands in the table's words as it was stored; each consumer stands at the edge of frames, not below that
/// position, and at or below the contiguous end of what was stored, which is no higher than any mark that the join and the
/// ends of all stored frames aren't above; a set bit there is that of a stored frame, and without one it is at that end; and
/// the one inserter knows just what was stored, each reader is one consumer and alone that one, and knows only what was stored.
pub fn rule_says()
    ensures { RuleSays }
{}

/// Between any two word steps a consumer whose held bit is zero stands at the end of what was stored without a gap.
pub fn ends_without_bit()
    ensures { EndsWithoutBit }
{}

/// Each kind of step, whatever stands when it happens, keeps the rule, tells of its seat what its call says, and is one event
/// or a look: the store of the held bit of a frame's first unit inserts that frame, whose units weren't stored before; the
/// store of a position moves that consumer past one frame; all others change neither what was stored nor where a consumer
/// stands.
pub fn steps_are_events()
    ensures { StepsAreEvents }
{}
