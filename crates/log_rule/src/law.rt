//! What the rule says, and what the steps of consumers and of the keeper are to the stream.

ghost use Rattle.log_rule.specs.Lookings.{OthersAreLooks};
ghost use Rattle.log_rule.specs.Says.{RuleSays};

/// Whatever words and passes a log has: the entries tile the stream from its start to the greatest position that
/// the three raw tails show; each owner's share is what was claimed under its number; there is room; each committed
/// frame is spelt in the words as far as it isn't cleaned; the first word of an open one is zero, and so is all from the
/// tail on; each frame, committed or open, is one of an entry, where that has it and as long as that has it, and those are
/// all; who has claimed under a number, or may, is one pass; each consumer stands within the stream, with all committed below
/// it; and each frame that a reader knows is committed.
pub fn rule_says()
    ensures { RuleSays }
{}

/// Each kind of step of a consumer or of the keeper, whatever stands when it happens, keeps the rule, tells of its pass what
/// its call says, and changes neither what is claimed nor what is committed.
pub fn others_are_looks()
    ensures { OthersAreLooks }
{}
