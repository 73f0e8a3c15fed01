//! The thread that reads: it reads messages and offers each until it is accepted (`read_input`), over what it shares with the one
//! that sends (`OfferingState`). It may stay at its input for ever. Whoever joins it gets the input, the publisher and how the reading
//! ended (`start_reader`, `Reader::join`, by `EndsInput`).
pub(crate) mod offering_state;
pub(crate) mod reader;
pub(crate) mod reading;

pub use offering_state::OfferingState;
pub use reader::{InputEnd, OfferingContext, Reader, ReadsInput, read_input, start_reader};
pub use reading::{Offered, Reading, ReadingEnd, ReadingFault};
