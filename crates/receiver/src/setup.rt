//! What a receiver makes of a SETUP: the image that it opens, of what geometry and where, or the first thing that is wrong with
//! it.

pub(crate) mod fault;
pub(crate) mod judgement;
