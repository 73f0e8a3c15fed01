//! The plans of the two ends of a channel.

pub(crate) mod end_plan;
pub(crate) mod fault;
pub(crate) mod ids;
pub(crate) mod options;
pub(crate) mod plans;
pub(crate) mod publish_plan;
pub(crate) mod subscribe_plan;
pub(crate) mod way_fault;
pub(crate) mod ways;
