//! How long messages take from their offer to their poll, on a log that threads share (`time_log`), and through the driver
//! over UDP on this machine, all of its threads from their start to their end (`time_driver`); with what a measurement
//! of times is made of and tells: its plan, its course, stamps in messages, the samples and their percentiles, and its
//! row of a table.
//!
//! Percentiles are the samples at their indices, of the samples sorted (`percentiles_of`); no more messages are timed
//! than were asked for (`timed_by`, `time_log`, `time_driver`). A stamp that was put into a message reads back, and leaves the rest
//! of its message (`put_stamp`, `stamp_in`). A message at a fixed rate has the moment at which it is due as its stamp
//! (`Course::stamp`); a rate's moments are exact (`Load::due`). Passes are used as asked. That anything is timed isn't
//! said.
#![tactic(auto)]

mod agent_threads;
mod course;
mod driver_timing;
mod fault;
mod load;
mod log_follower;
mod log_timing;
mod measured_run;
mod percentiles;
mod plan;
mod publisher_threads;
mod receiving;
mod row;
mod samples;
mod sampling;
mod stamps;

pub use course::Course;
pub use driver_timing::time_driver;
pub use fault::LatencyError;
pub use load::Load;
pub use log_timing::time_log;
pub use percentiles::{Percentiles, percentile, percentiles_of};
pub use plan::Plan;
pub use publisher_threads::{Offers, WhenFull, start_publishers};
pub use row::{HEADER, Row};
pub use samples::{Samples, Timed, timed_by};
pub use stamps::stamp_in;
