//! Rounds.

pub(crate) mod claiming;
pub(crate) mod closing;
pub(crate) mod gate;
pub(crate) mod lane;
pub(crate) mod offering;
pub(crate) mod opening;
pub(crate) mod reading;
pub(crate) mod round;
pub(crate) mod storing;
pub(crate) mod streaming;
