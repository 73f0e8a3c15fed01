//! Numbers and bytes as text: decimal numbers are read from their digits, and bytes are written as hexadecimal ones,
//! wherever a script, a channel or the program has them; and how fast something went.
//!
//! A number is read exactly where its digits spell one of at most so much, with any leading zeros and no plus sign
//! (`number`, by `number_of`); one of 32 bits perhaps behind a minus sign (`signed`, by `signed_of`). Bytes are two
//! small hexadecimal digits each, the high half first (`Hexadecimal`, as `Display` writes it). What is shown of a count and a
//! time is exact too (`Pace`, by `pace_text`).
#![tactic(auto)]

mod decimals;
mod hexadecimal;
mod pace;

pub use decimals::{number, signed};
pub use hexadecimal::Hexadecimal;
pub use pace::{Pace, paces_are_cut};
