//! An image that threads share, and the model.

ghost use Rattle.threads_meaning.specs.Images.{MovesAreEvents, OpensImage, StepsAreEvents, StepsHaveKinds, TablesAreInRuns};

use image_rule::steps_are_events;
use model::every_run;

/// A law: between any two steps on the words of an image's table, in whatever threads they are made, these words and seats are an
/// image of the model. It has what the inserter's seat has stored, and its consumers stand where their words say. A table that was
/// just opened is one that has stored nothing. Each step is one event of that image, or none: a frame that is stored is one that was
/// inserted, a position that is stored a consumer that was moved past a frame, and every other step a look.
pub fn image_steps_are_events()
    ensures opens { OpensImage }
    ensures kinds { StepsHaveKinds }
    ensures steps { StepsAreEvents }
    ensures moves { MovesAreEvents }
{
    // A law that the proof cites.
    steps_are_events();
}

/// A law: so what `every_run` says of images holds of such a table, between any two steps on its words. Where it shows the image of a
/// world to which a run leads, and a step stores a frame that the sender sent, and that the model's image would store, or moves a
/// consumer, it shows the image of a world to which the run leads on: each byte that it has stored is the publisher's, no consumer
/// passes the contiguous end, and what each was given is a prefix's messages.
pub fn images_are_in_runs()
    ensures { TablesAreInRuns }
{
    // A law that the proof cites.
    every_run();
}
