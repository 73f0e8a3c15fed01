//! What lines of `run` tell.

use command_line::{Options, options};
use options::{RunOptions, defaults};
use std::alloc::Global;

/// Whether a line of `run` is taken, and tells this.
fn tells<'a>(alloc: Global, words: &'a [&'a str], wanted: &RunOptions) -> bool {
    match options(alloc, words) {
        Ok(Options::Run(told)) => told == *wanted,
        _ => false,
    }
}

/// Whether `run` alone tells what is so by default, and others what they name beside that.
pub fn are_told(alloc: Global) -> bool {
    let mut wanted = defaults();
    let alone = tells(alloc, &["mdriver", "run"], &wanted);
    wanted.seed = 18_446_744_073_709_551_615;
    let words: &[&str] = &["mdriver", "run", "--seed=18446744073709551615"];
    let greatest = tells(alloc, words, &wanted);
    wanted.seed = 1;
    wanted.publishers = 8;
    wanted.receivers = 2;
    wanted.counters = true;
    let words: &[&str] = &[
        "mdriver",
        "run",
        "--publishers",
        "8",
        "--receivers=2",
        "--counters",
    ];
    alone && greatest && tells(alloc, words, &wanted)
}
