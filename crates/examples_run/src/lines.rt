//! Command lines over streams of memory.

use crate::bytes::Bytes;
use crate::table::Done;
use commands::command;
use std::alloc::{AllocError, Global};
use std::net::Net;
use std::random::RandomSource;
use std::sync::Wait;
use std::thread::Threads;
use std::time::Clock;

/// Carries out a command line with this input.
pub(crate) fn run_over<
    'a,
    C: Threads + Wait + Clock + Net + RandomSource + Sync + Send + Copy + 'static,
>(rt: &C, alloc: Global, words: &'a [&'a str], input: &[u8]) -> Result<Done, AllocError> {
    let mut output = Vec::new(alloc);
    let mut errors = Vec::new(alloc);
    let input = Bytes::new(alloc, input)?;
    let status = command(rt, alloc, words, input, &mut output, &mut errors);
    Ok(Done {
        output,
        errors,
        status,
    })
}

/// Whether this script prints these lines, and nothing else.
pub fn prints<C: Threads + Wait + Clock + Net + RandomSource + Sync + Send + Copy + 'static>(
    rt: &C,
    alloc: Global,
    script: &str,
    expected: &str,
) -> Result<bool, AllocError> {
    let done = run_over(rt, alloc, &["mdriver", "sim"], script.as_bytes())?;
    Ok(done.status == 0 && done.errors.is_empty() && done.output.as_slice() == expected.as_bytes())
}
