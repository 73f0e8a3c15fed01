//! Command lines over streams of memory, over such as fail, and of the greatest lengths.

use crate::broken::{Broken, Counted};
use crate::bytes::Bytes;
use crate::table::Done;
use commands::command;
use std::alloc::{AllocError, Global};
use std::io::{Read, Write};
use std::net::Net;
use std::random::RandomSource;
use std::sync::Wait;
use std::thread::Threads;
use std::time::Clock;

const SIM: &[&str] = &["mdriver", "sim"];

const DECODE: &[&str] = &[
    "mdriver",
    "decode",
    "0000000000c001004000000001000000e9030000070000000000000000000000",
];

const HELP: &[&str] = &["mdriver", "--help"];

const VERSION: &[&str] = &["mdriver", "--version"];

/// Carries out a command line. The answer is what it tells, and its status.
fn carry_out<
    'a,
    C: Threads + Wait + Clock + Net + RandomSource + Sync + Send + Copy + 'static,
    R: Read + Send + Drop + 'static,
    W: Write,
>(rt: &C, alloc: Global, words: &'a [&'a str], input: R, output: &mut W) -> (Vec<u8>, u8) {
    let mut errors = Vec::new(alloc);
    let status = command(rt, alloc, words, input, output, &mut errors);
    (errors, status)
}

fn run_over<'a, C: Threads + Wait + Clock + Net + RandomSource + Sync + Send + Copy + 'static>(
    rt: &C,
    alloc: Global,
    words: &'a [&'a str],
    input: &[u8],
) -> Result<Done, AllocError> {
    let mut output = Vec::new(alloc);
    let input = Bytes::new(alloc, input)?;
    let (errors, status) = carry_out(rt, alloc, words, input, &mut output);
    Ok(Done {
        output,
        errors,
        status,
    })
}

/// Whether the input that can't be read is told.
fn is_read_told<C: Threads + Wait + Clock + Net + RandomSource + Sync + Send + Copy + 'static>(
    rt: &C,
    alloc: Global,
) -> bool {
    let mut output = Vec::new(alloc);
    let (errors, status) = carry_out(rt, alloc, SIM, Broken, &mut output);
    errors.as_slice() == b"error: read\n".as_slice() && status == 1
}

/// Whether a command line tells that this output can't be written or flushed.
fn is_write_told<
    'a,
    C: Threads + Wait + Clock + Net + RandomSource + Sync + Send + Copy + 'static,
    W: Write,
>(rt: &C, alloc: Global, words: &'a [&'a str], output: &mut W) -> Result<bool, AllocError> {
    let input = Bytes::new(alloc, b"log 65536 1408 7 0 1 1001 0\n")?;
    let (errors, status) = carry_out(rt, alloc, words, input, output);
    Ok(errors.as_slice() == b"error: write\n".as_slice() && status == 1)
}

/// Whether a command line writes something, and flushes all of it.
fn is_flushed<'a, C: Threads + Wait + Clock + Net + RandomSource + Sync + Send + Copy + 'static>(
    rt: &C,
    alloc: Global,
    words: &'a [&'a str],
) -> Result<bool, AllocError> {
    let input = Bytes::new(alloc, b"log 65536 1408 7 0 1 1001 0\n")?;
    let mut output = counting(false);
    let (_, status) = carry_out(rt, alloc, words, input, &mut output);
    Ok(status == 0 && output.written > 0 && output.flushed == output.written)
}

fn counting(fails: bool) -> Counted {
    Counted {
        fails,
        written: 0,
        flushed: 0,
    }
}

/// Whether each command line tells that a stream fails, and flushes one that doesn't.
pub fn faults_are_told<
    C: Threads + Wait + Clock + Net + RandomSource + Sync + Send + Copy + 'static,
>(rt: &C, alloc: Global) -> Result<bool, AllocError> {
    let mut told = is_read_told(rt, alloc);
    for words in [SIM, DECODE, HELP, VERSION] {
        told &= is_write_told(rt, alloc, words, &mut Broken)?;
        told &= is_write_told(rt, alloc, words, &mut counting(true))?;
        told &= is_flushed(rt, alloc, words)?;
    }
    Ok(told)
}

/// Whether a command line tells this, and nothing else, and ends with status 1.
fn is_refused<'a, C: Threads + Wait + Clock + Net + RandomSource + Sync + Send + Copy + 'static>(
    rt: &C,
    alloc: Global,
    words: &'a [&'a str],
    input: &[u8],
    told: &[u8],
) -> Result<bool, AllocError> {
    let done = run_over(rt, alloc, words, input)?;
    Ok(done.errors.as_slice() == told && done.status == 1)
}

/// A script of so many bytes that opens a log.
fn script_of(alloc: Global, length: usize) -> Result<Vec<u8>, AllocError> {
    let mut script = Vec::from_slice(alloc, b"log 65536 1408 7 0 1 1001 0\n")?;
    script.resize(length, b'\n')?;
    Ok(script)
}

/// Whether a script of 1 MiB is played, and one byte more isn't.
fn is_script_bounded<C: Threads + Wait + Clock + Net + RandomSource + Sync + Send + Copy + 'static>(
    rt: &C,
    alloc: Global,
) -> Result<bool, AllocError> {
    let mut script = script_of(alloc, 1_048_576)?;
    let played = run_over(rt, alloc, SIM, &script)?.output;
    script.push(b'\n')?;
    Ok(
        played.as_slice() == b"open\nbook 0 0 0 0 0 0 0 0 0 0\n".as_slice()
            && is_refused(rt, alloc, SIM, &script, b"error: input\n")?,
    )
}

/// So many digits 0.
fn zeros(alloc: Global, count: u32) -> Result<String, AllocError> {
    let mut digits = String::new(alloc);
    for _ in 0..count {
        digits.push('0')?;
    }
    Ok(digits)
}

/// Whether `decode` of a word tells this.
fn is_word_refused<C: Threads + Wait + Clock + Net + RandomSource + Sync + Send + Copy + 'static>(
    rt: &C,
    alloc: Global,
    word: &str,
    told: &[u8],
) -> Result<bool, AllocError> {
    is_refused(rt, alloc, &["mdriver", "decode", word], b"", told)
}

/// Whether a word of 131,072 digits is read, and two digits more aren't.
fn is_word_bounded<C: Threads + Wait + Clock + Net + RandomSource + Sync + Send + Copy + 'static>(
    rt: &C,
    alloc: Global,
) -> Result<bool, AllocError> {
    let mut digits = zeros(alloc, 131_072)?;
    let read = is_word_refused(rt, alloc, &digits, b"error: F4 length\n")?;
    digits.push_str("00")?;
    Ok(read && is_word_refused(rt, alloc, &digits, b"error: hex\n")?)
}

/// Whether the greatest script and the greatest word are taken, and longer ones aren't.
pub fn lengths_are_bounded<
    C: Threads + Wait + Clock + Net + RandomSource + Sync + Send + Copy + 'static,
>(rt: &C, alloc: Global) -> Result<bool, AllocError> {
    Ok(is_script_bounded(rt, alloc)? && is_word_bounded(rt, alloc)?)
}
