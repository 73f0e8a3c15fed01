//! What a run and the two ends of a channel are told, and the plans that it makes, or the first fault.
//!
//! `plan` gives the plan of what a run is told, or the first of its faults: the term length, the MTU, the length of a
//! message, the rates; each exactly where it is one (`IsPlanOf`, `IsFirstFault`; `PlanFault` as `Display` writes it).
//! Numbers are in their ranges by the type.
//!
//! The plan of an end is the one of the channel that the text is, of a drawn session and first term where none are
//! named, and of what was told; its start is a position at which a log may open. Else the fault is the first: of the
//! channel, the term length, the MTU, the start, the rates (`publish_plan`, by `IsPublishPlanOf` and
//! `ExplainsNoPublishPlan`; `subscribe_plan`, by `IsSubscribePlanOf` and `ExplainsNoSubscribePlan`). The ids that random
//! bytes spell are exact (`draw`).
//!
//! A publisher's ways are the channel's own and one to each further endpoint that it is told, up to eight, no two of them to
//! the same one; else the fault is the first (`ways_of`, by `AreWays` and `ExplainsNoWays`).
#![tactic(auto)]

mod ends;
mod run;

pub use ends::end_plan::SECOND;
pub use ends::fault::EndFault;
pub use ends::ids::{Drawn, draw};
pub use ends::options::{EndOptions, PublishOptions, SubscribeOptions};
pub use ends::plans::{EndPlan, PublishPlan, SubscribePlan};
pub use ends::publish_plan::publish_plan;
pub use ends::subscribe_plan::subscribe_plan;
pub use ends::way_fault::WayFault;
pub use ends::ways::ways_of;
pub use run::fault::PlanFault;
pub use run::made::Plan;
pub use run::options::RunOptions;
pub use run::run_plan::{defaults, plan};
