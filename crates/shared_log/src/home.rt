//! What shows that a log's region is there.

use region::Region;
use std::sync::Arc;

/// A handle of a log's region, for whoever commits or cleans.
#[derive(Drop)]
pub struct Home {
    pub(crate) region: Arc<Region>,
}
