//! What all agents of a run are lent.

use crate::run_state::RunState;
use std::alloc::Global;

/// What all agents of a run are lent: what they share, what they pass in each of their cycles, and how many cycles each of
/// them has.
#[derive(Drop)]
pub struct Context<'a, R, G> {
    pub rt: &'a R,
    pub alloc: Global,
    pub state: &'a RunState,
    pub gate: &'a G,
    pub turns: u32,
}
