//! The options that say what becomes of datagrams.

use crate::number::Number;

/// The heading of these options.
const ON_PURPOSE: &str = "Losing datagrams on purpose, to try what happens then";

/// How many of a thousand datagrams are lost.
pub const LOSS: Number = Number {
    name: "loss",
    value: "N",
    heading: Some(ON_PURPOSE),
    least: 0,
    most: 1000,
    otherwise: 0,
    help: "How many of 1000 datagrams are lost, 0 to 1000 [default: 0]",
};

/// How many of a thousand are repeated.
pub(crate) const REPEAT: Number = Number {
    name: "repeat",
    value: "N",
    heading: Some(ON_PURPOSE),
    least: 0,
    most: 1000,
    otherwise: 0,
    help: "How many of 1000 are repeated, 0 to 1000 [default: 0]",
};

/// How many of a thousand are held back.
pub(crate) const HOLD: Number = Number {
    name: "hold",
    value: "N",
    heading: Some(ON_PURPOSE),
    least: 0,
    most: 1000,
    otherwise: 0,
    help: "How many of 1000 are held back, 0 to 1000 [default: 0]",
};

/// Where the random words begin.
pub const SEED: Number = Number {
    name: "seed",
    value: "N",
    heading: Some(ON_PURPOSE),
    least: 0,
    most: u64::MAX,
    otherwise: 1,
    help: "Where the random words begin, 0 to 18446744073709551615 [default: 1]",
};
