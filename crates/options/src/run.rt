//! The plan of a run.

pub(crate) mod fault;
pub(crate) mod made;
pub(crate) mod options;
pub(crate) mod run_plan;
