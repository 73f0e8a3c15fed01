//! What every role of a log holds.

use crate::home::Home;
use crate::steps::pass::LogPass;
use position::Identity;

/// A pass in the hands of a publisher, a reader or the keeper.
#[derive(Drop)]
pub(crate) struct Handle {
    pub(crate) pass: LogPass,
    /// Shows that the log's region is there, where the pass may commit or clean.
    pub(crate) home: Option<Home>,
    /// The position below which memory was taken back, where it is the keeper.
    pub(crate) freed: u64,
    /// Which stream its log carries, and where that begins.
    pub(crate) identity: Identity,
    pub(crate) start: u64,
}
