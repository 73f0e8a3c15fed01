//! A publisher's claims as values that must be spent, over the log that threads share.
//!
//! A publisher that claims (`Claimant`) brings memory of its own, for as many bytes as the MTU. `try_claim` takes it and gives a
//! `Claim` that lends the bytes of its message, zeros at first, and ends by `commit` or `abort`, which give the claimant
//! back. It is made of two halves: `arm` looks at the log, and `Armed::add` adds to the tail, whatever happened between.
//! What is said of a claim is said of the two together: at most seven word steps, and a refusal justified by the words
//! that they loaded or added to. A refused call gives the claimant back too (`Denied`).
//!
//! `Armed` and `Claim` can't be dropped, so a claimant has nothing open: `close` wants all passes and a keeper that has
//! claimed nothing, asks nothing else of a claimant, and its book has each frame of each entry committed.
//!
//! A publisher, a reader and the keeper also go each with a share of the log, so that it can be kept as long as it is wanted
//! with nothing beside it (`Opened` and the passes that are taken from it).
#![tactic(auto)]

mod armed;
mod claim;
mod claimant;
mod closing;
mod denied;
mod equipped;
mod parts;
mod passes;

pub use armed::{Armed, arm, try_claim};
pub use claim::Claim;
pub use claimant::{Claimant, offer};
pub use closing::close;
pub use denied::Denied;
pub use parts::{Parts, open, with_blocks};
pub use passes::claiming::ClaimPass;
pub use passes::fault::Fault;
pub use passes::keeping::KeeperPass;
pub use passes::opening::{Config, Opened};
pub use passes::publishing::PublisherPass;
pub use passes::reading::ReaderPass;
