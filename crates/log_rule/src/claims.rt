//! Claims.

pub(crate) mod law;
pub(crate) mod places;
pub(crate) mod view;
