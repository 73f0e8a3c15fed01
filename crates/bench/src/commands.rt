use crate::timing::{Subject, TimingOptions};
use crate::timing_line::timing_options;
use crate::timing_plan::timing_plan;
use anyhow::{Error, bail};
use command_line::{LineFault, process_words};
use latency::{HEADER, Row, time_driver, time_log};
use position::Geometry;
use speed::{
    Figures, ImageFigures, measure, measure_claims, measure_image, measure_stream, play_claims,
    play_round, play_stream,
};
use std::alloc::{AllocGlobal, Global};
use std::env::Env;
use std::io;
use std::net::Net;
use std::sync::Wait;
use std::thread::Threads;
use std::time::Clock;

/// The numbers of threads.
const THREADS: [usize; 4] = [1, 2, 4, 8];

/// Carries out the process's command line.
pub fn carry_out<R: Threads + Wait + Clock + Net + Print + Sync + Env + AllocGlobal>(
    rt: &R,
    alloc: Global,
) -> Result<(), Error> {
    let words = process_words(rt)?;
    let words: Vec<&str> = words.iter().map(|word| word.as_str()).collect(alloc)?;
    command(rt, alloc, &words)
}

/// Carries out a command line of such words; the first is the program's name.
fn command<R: Threads + Wait + Clock + Net + Print + Sync>(
    rt: &R,
    alloc: Global,
    words: &[&str],
) -> Result<(), Error> {
    match words {
        [] | [_] => small(rt, alloc),
        [_, "header"] => Ok(rt.println(HEADER)?),
        [_, "log", ..] => timing(rt, alloc, Subject::Log, &words[1..]),
        [_, "driver", ..] => timing(rt, alloc, Subject::Driver, &words[1..]),
        [_, "claims"] => claims(rt, alloc, "11"),
        [_, "claims", rounds, ..] => claims(rt, alloc, *rounds),
        [_, "images"] => images(rt, alloc, "200000"),
        [_, "images", frames, ..] => images(rt, alloc, *frames),
        [_, "stream", rounds, messages, ..] => streams(rt, alloc, *rounds, *messages),
        [_, "stream", ..] => streams(rt, alloc, "11", "400000"),
        [_, rounds, ..] => large(rt, alloc, *rounds),
    }
}

/// Times what the words tell, and prints a row.
fn timing<R: Threads + Wait + Clock + Net + Print + Sync>(
    rt: &R,
    alloc: Global,
    subject: Subject,
    words: &[&str],
) -> Result<(), Error> {
    match timing_options(alloc, subject, words) {
        Ok(options) => timing_row(rt, alloc, subject, &options),
        Err(fault) => help_or_refusal(rt, alloc, &fault),
    }
}

/// Prints the help that was asked for. Where the line was refused, or memory was, the error says so in a line.
fn help_or_refusal(rt: &impl Print, alloc: Global, fault: &LineFault) -> Result<(), Error> {
    let text = format!(in alloc; "{fault}")?;
    if let LineFault::Shown(_) = fault
        && !fault.is_refusal()
    {
        print!(rt; "{text}")?;
        return Ok(());
    }
    let line = text.as_str().lines().next().unwrap_or("");
    bail!("{}", line.strip_prefix("error: ").unwrap_or(line))
}

/// Times as it is told, and prints a row.
fn timing_row<R: Threads + Wait + Clock + Net + Print + Sync>(
    rt: &R,
    alloc: Global,
    subject: Subject,
    options: &TimingOptions,
) -> Result<(), Error> {
    let plan = timing_plan(options)?;
    let (program, timed) = match subject {
        Subject::Log => ("pechvang-log", time_log(rt, alloc, &plan)?),
        Subject::Driver => ("pechvang-driver", time_driver(rt, alloc, &plan)?),
    };
    let row = Row {
        program,
        plan,
        timed,
    };
    println!(rt; "{row}")?;
    Ok(())
}

/// Times a log and the driver for a few messages.
fn latencies<R: Threads + Wait + Clock + Net + Print + Sync>(
    rt: &R,
    alloc: Global,
) -> Result<(), Error> {
    let words = ["log", "--publishers", "4", "--messages", "400"];
    let options = match timing_options(alloc, Subject::Log, &words) {
        Ok(options) => options,
        Err(fault) => return help_or_refusal(rt, alloc, &fault),
    };
    let plan = timing_plan(&options)?;
    let timed = time_log(rt, alloc, &plan)?;
    println!(rt; "log latency: {} of 400", timed.messages)?;
    let timed = time_driver(rt, alloc, &plan)?;
    println!(rt; "driver latency: {} of 400", timed.messages)?;
    Ok(())
}

/// Gives an image so many frames of 1,408 and of 200 bytes, reads each at once, and prints what each took.
fn images<R: Clock + Print>(rt: &R, alloc: Global, word: &str) -> Result<(), Error> {
    let frames: u32 = word.parse()?;
    image_line(rt, &measure_image(rt, alloc, &[97; 1376], frames)?)?;
    image_line(rt, &measure_image(rt, alloc, &[97; 168], frames)?)?;
    Ok(())
}

/// One line of it: the frame's length, tenths of nanoseconds for each, and two numbers by which to see that the work was done.
fn image_line(rt: &impl Print, figures: &ImageFigures) -> io::Result<()> {
    let ImageFigures {
        length,
        tenths,
        played,
    } = *figures;
    let (sum, stored) = (played.sum, played.stored);
    println!(rt; "image {length} {tenths} {sum} {stored}")
}

/// Plays small rounds.
fn small<R: Threads + Wait + Clock + Net + Print + Sync>(
    rt: &R,
    alloc: Global,
) -> Result<(), Error> {
    let geometry = Geometry::new(65_536, 1408, 7)?;
    for threads in THREADS {
        let filled = play_round(rt, alloc, geometry, threads)?;
        let full = filled.accepted >= 128;
        println!(rt; "threads {threads}: closed, and full: {full}")?;
    }
    for threads in THREADS {
        let filled = play_claims(rt, alloc, geometry, threads)?;
        let full = filled.accepted >= 128;
        println!(rt; "claims by {threads}: closed, and full: {full}")?;
    }
    for publishers in [1, 4] {
        let played = play_stream(rt, alloc, geometry, publishers, 1000)?;
        let (sent, read) = (played.sent, played.read);
        println!(rt; "stream of {publishers}: {sent} sent, {read} read")?;
    }
    let passed = measure_image(rt, alloc, &[97; 168], 1000)?;
    println!(rt; "image: {} stored", passed.played.stored)?;
    latencies(rt, alloc)?;
    println!(rt; "bench ROUNDS measures so many rounds, bench images FRAMES so many frames")?;
    println!(rt;
        "bench claims ROUNDS measures so many rounds of claims that are written and committed"
    )?;
    println!(rt;
        "bench stream ROUNDS MESSAGES measures so many rounds of so many messages in all"
    )?;
    println!(rt; "bench log OPTIONS and bench driver OPTIONS print a row, bench header its head")?;
    Ok(())
}

/// The term lengths of streams.
const TERMS: [u32; 2] = [65_536, 16_777_216];

/// Streams so many messages in all, and prints the medians of so many rounds.
fn streams<R: Threads + Clock + Print + Sync>(
    rt: &R,
    alloc: Global,
    rounds: &str,
    messages: &str,
) -> Result<(), Error> {
    let rounds: usize = rounds.parse()?;
    let messages: u32 = messages.parse()?;
    println!(rt; "    term  publishers  ns/message")?;
    for term_length in TERMS {
        let geometry = Geometry::new(term_length, 1408, 7)?;
        for publishers in THREADS {
            let each = messages / publishers as u32;
            let median = measure_stream(rt, alloc, geometry, publishers, each, rounds)?;
            if let Some(picoseconds) = median {
                stream_line(rt, term_length, publishers, picoseconds)?;
            }
        }
    }
    Ok(())
}

/// One line of the table, in nanoseconds.
fn stream_line(
    rt: &impl Print,
    term_length: u32,
    publishers: usize,
    picoseconds: u64,
) -> io::Result<()> {
    let (whole, part) = (picoseconds / 1000, picoseconds % 1000 / 100);
    println!(rt; "{term_length:>8}  {publishers:>10}  {whole:>8}.{part}")
}

/// The term length of logs that are filled.
const LARGE: u32 = 16_777_216;

/// Fills logs of the greatest term length by claims that are written and committed, and prints the medians.
fn claims<R: Threads + Clock + Print + Sync>(
    rt: &R,
    alloc: Global,
    word: &str,
) -> Result<(), Error> {
    let rounds: usize = word.parse()?;
    let geometry = Geometry::new(LARGE, 1408, 7)?;
    println!(rt; "threads  ns/claim")?;
    for threads in THREADS {
        if let Some(picoseconds) = measure_claims(rt, alloc, geometry, threads, rounds)? {
            claim_line(rt, threads, picoseconds)?;
        }
    }
    Ok(())
}

/// One line of the table, in nanoseconds.
fn claim_line(rt: &impl Print, threads: usize, picoseconds: u64) -> io::Result<()> {
    let (whole, part) = (picoseconds / 1000, picoseconds % 1000 / 100);
    println!(rt; "{threads:>7}  {whole:>6}.{part}")
}

/// Fills logs of the greatest term length, and prints the medians.
fn large<R: Threads + Clock + Print + Sync>(
    rt: &R,
    alloc: Global,
    word: &str,
) -> Result<(), Error> {
    let rounds: usize = word.parse()?;
    let geometry = Geometry::new(LARGE, 1408, 7)?;
    let lines = measure(rt, alloc, geometry, rounds)?;
    println!(rt; "threads  ns/claim  ns/stores")?;
    for figures in lines.iter().flatten() {
        line(rt, figures)?;
    }
    Ok(())
}

/// One line of the table, in nanoseconds.
fn line(rt: &impl Print, figures: &Figures) -> io::Result<()> {
    let Figures {
        threads,
        claim,
        stores,
    } = *figures;
    let (claim, part) = (claim / 1000, claim % 1000 / 100);
    let (stores, rest) = (stores / 1000, stores % 1000 / 100);
    println!(rt; "{threads:>7}  {claim:>6}.{part}  {stores:>7}.{rest}")
}
