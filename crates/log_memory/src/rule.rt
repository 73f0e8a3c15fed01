//! The rule of a log whose frames lie in plain memory.

use crate::view::{LogView, Site};
use atomic_table::TableRule;
use region::Access;

/// The words, the memory and the passes of a log obey the rule.
pub struct LogMemoryRule;

impl TableRule<Access, LogView, Site> for LogMemoryRule {
    ghost use Rattle.log_memory.specs.Rule.{LogMemoryRuled, whole_seat};

    ghost holds = { LogMemoryRuled };

    ghost first = { whole_seat };
}
