//! The rows of a text, carried out.

use crate::lines::run_over;
use crate::table::Row;
use std::alloc::{AllocError, Global};
use std::net::Net;
use std::random::RandomSource;
use std::sync::Wait;
use std::thread::Threads;
use std::time::Clock;

/// How many rows there were, and on which lines those end that differ.
#[derive(Drop)]
pub struct Found {
    pub rows: u32,
    pub differing: Vec<u32>,
}

/// Whether the command line does what the row says, and ends with this status.
fn is_met<C: Threads + Wait + Clock + Net + RandomSource + Sync + Send + Copy + 'static>(
    rt: &C,
    alloc: Global,
    row: &Row<'_>,
    status: &str,
) -> Result<bool, AllocError> {
    let done = run_over(rt, alloc, row.words(), row.input())?;
    Ok(row.is_met(&done, status))
}

/// Whether no proper beginning of a frame can be read.
fn is_short<C: Threads + Wait + Clock + Net + RandomSource + Sync + Send + Copy + 'static>(
    rt: &C,
    alloc: Global,
    digits: &str,
) -> Result<bool, AllocError> {
    let mut short = true;
    for end in (0..digits.len()).step_by(2) {
        let beginning = digits.get(..end).unwrap_or("none");
        let done = run_over(rt, alloc, &["mdriver", "decode", beginning], b"")?;
        short &= done.errors.as_slice() == b"error: F1 short\n".as_slice() && done.status == 1;
    }
    Ok(short)
}

/// Takes a line: one that tells something of the row, or one that ends it.
fn take_line<'a, C: Threads + Wait + Clock + Net + RandomSource + Sync + Send + Copy + 'static>(
    rt: &C,
    alloc: Global,
    row: &mut Row<'a>,
    found: &mut Found,
    number: u32,
    line: &'a str,
) -> Result<(), AllocError> {
    let Some((mark, rest)) = line.split_once(' ') else {
        return Ok(());
    };
    let met = match mark {
        "=" => is_met(rt, alloc, row, rest)?,
        "%" => is_short(rt, alloc, rest)?,
        _ => return row.learn(alloc, mark, rest),
    };
    found.rows = found.rows.wrapping_add(1);
    if !met {
        found.differing.push(number)?;
    }
    row.clear();
    Ok(())
}

/// Carries out the rows of a text.
pub fn play_rows<C: Threads + Wait + Clock + Net + RandomSource + Sync + Send + Copy + 'static>(
    rt: &C,
    alloc: Global,
    text: &str,
) -> Result<Found, AllocError> {
    let mut found = Found {
        rows: 0,
        differing: Vec::new(alloc),
    };
    let mut row = Row::new(alloc);
    let mut number: u32 = 0;
    for line in text.lines() {
        number = number.wrapping_add(1);
        take_line(rt, alloc, &mut row, &mut found, number, line)?;
    }
    Ok(found)
}
