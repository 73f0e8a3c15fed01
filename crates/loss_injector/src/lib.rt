//! A network's losses, made on purpose: datagrams dropped, repeated and held back, as random words decide; a device
//! that does so to what is sent through it; and one that counts what frames it is given.
//!
//! It is said which rates there are, what a word decides, and what is given and held then, in order (`Rates::new`,
//! `decide`, `Injector::push`). A refused datagram leaves the held one, and none is refused that is dropped or held
//! back. `Injector::way` says the same of a word, without a datagram and without memory.
//!
//! Each send of a lossy device draws one word of a `Pcg32` of the given seed, and where the inner device tells, it
//! has carried away what the injector makes of the datagram by that word, in order, or the first of it up to a fault.
//! Only a datagram that is to be held back asks for memory; where that is refused, it is lost. A receive is the inner device's and draws
//! nothing (`Lossy::new`, `Lossy` as `Datagrams`). Of the datagrams that went out with frames, those of new ones and
//! those of frames sent again are counted, exactly (`Metered`); along how many ways each of them goes doesn't matter.
#![tactic(auto)]

mod injector;
mod lossy;
mod metered;
mod rates;

pub use injector::Injector;
pub use lossy::Lossy;
pub use metered::Metered;
pub use rates::{Rates, RatesError, Verdict, decide};
