//! The readers of an image.

ghost use Rattle.std.specs.Arc.{arc_value};
ghost use Rattle.std.specs.List.{All};
ghost use Rattle.image.specs.Handles.{IsReaderOf};

use image::{Image, ImageReader};
use std::alloc::Global;
use std::sync::Arc;

/// The readers of an image that a SETUP opened, with that image: reader number 0 stands last, so that it is popped first.
#[derive(Drop)]
pub struct Readers {
    pub image: Arc<Image, Global>,
    pub readers: Vec<ImageReader>,
    ghost fits: { All (IsReaderOf (arc_value image)) readers.items },
}
