//! What the kinds of step are to the stream.

ghost use Rattle.log_rule.specs.Claims.Events.{StepsAreEvents};

/// Each kind of step, whatever stands when it happens, keeps the rule, tells of its pass what the word call says, and is
/// one event: one entry more at the tail, one frame more committed, or nothing but a look.
pub fn steps_are_events()
    ensures { StepsAreEvents }
{}
