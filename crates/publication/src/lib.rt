//! Publishing without a lock: offers and claims of a publisher, their commit and abort, and the turn to the next
//! term, written once over the trait of word calls (`WordCalls`): each is one step on one word, but for those that fill an
//! open frame, which store it whole and commit it, by one store.
//!
//! Each contract speaks of the pass before and after and of the answer, never of the log. An accepted `offer` gives
//! its pass one claim more, at the position of the word that its addition answered, with the message in its frames'
//! words, all committed; `try_claim` the same, open, until `commit` or `abort` ends it. A refusal is justified by the
//! words that this call loaded or added to, and leaves nothing, or, where the addition passed the term's end, that
//! one padding. Every word step counts, and is told with the word that it answered: seven at the most in a call,
//! beside one store for each frame. A turn (`rotate`) is told whole: which raw tail is loaded, that it is exchanged
//! where its term is two before and only there, and that the active count is exchanged where the next term has begun
//! and only there, each once. Where nobody else steps between, the answer is the one that the tail, the active count
//! and the limit make it (a lemma). No call takes memory or waits.
//!
//! Nothing but these calls claims or commits (`InOrder`): a message's frames are committed from the first to the last, and
//! each as long as it was claimed. What a raw tail shows is told too (`position_shown`).
//!
//! What an addition takes lies behind all that its pass has claimed before. So the claims of a pass that began with none
//! are in the order of the stream (`claims_in_order`).
#![tactic(auto)]

mod claiming;
mod looking;
mod offers;
mod order;
mod pass;
mod refusal;
mod step;
mod tail;
mod turn;
mod words;
mod writing;

pub use claiming::add_range;
pub use looking::{Look, look_at};
pub use offers::{abort, commit, offer, try_claim};
pub use order::{InOrder, claims_in_order};
pub use pass::{ClaimRange, Controls, FrameWords, Keeping, Pass, Reading, Right, Seen, Work};
pub use refusal::Refusal;
pub use step::WordStep;
pub use tail::{position_shown, taken, term_offset};
pub use turn::{rotate, turn_from};
pub use words::WordCalls;
