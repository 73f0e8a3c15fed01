//! What the threads of these tests have.

use block::Block;
use image::{ImageReader, Inserter};

/// Who has a thread.
#[derive(Drop)]
pub enum Party {
    Inserting(Inserter),
    Reading { reader: ImageReader, block: Block },
}
