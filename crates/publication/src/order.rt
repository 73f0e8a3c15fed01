//! The order of claims and commits.

ghost use Rattle.publication.specs.Offers.{StayInOrder};

/// What this crate's calls show where they add or commit. Nobody else makes one, so the frames of a claim are committed by
/// these calls alone: those of a message from the first to the last, each with its own flags and as long as it was claimed.
#[derive(Drop)]
pub struct InOrder {
    sealed: (),
}

impl InOrder {
    pub(crate) fn new() -> InOrder {
        InOrder { sealed: () }
    }
}

/// A law: claims of a pass that are in the order of the stream, each behind all before it, stay so, whatever an offer or a
/// claim is answered, and where a claim ends.
pub fn claims_in_order()
    ensures { StayInOrder }
{}
