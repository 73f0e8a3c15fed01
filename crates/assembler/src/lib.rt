//! Messages put together from the frames that a consumer reads: it hands each DATA frame to one assembler, once and
//! in order.
//!
//! What one frame makes of what is begun is exact (`Assembler::on_frame`): the message that it completes, or what is
//! begun then. Too long is answered exactly where the message would be longer than the greatest; memory is asked for,
//! by the allocator that it is given, only where bytes are added; after both refusals nothing is begun. With the law
//! `whole_messages` of `theory`: over every list of frames a message comes out exactly at a single-frame one, or at
//! an end before which, back to the last begin, all are middles and none was refused.
#![tactic(auto)]

mod assembler;
mod fault;

pub use crate::assembler::{Assembler, Message};
pub use fault::AssemblyError;
