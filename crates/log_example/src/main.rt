//! One thread offers messages to a log, and another reads them.
#![tactic(auto)]

ghost use Rattle.shared_log.specs.Steps.Handles.{IsOf};
ghost use Rattle.shared_log.specs.Readers.{IsReaderOf};

use log_messages::LogMessages;
use position::Geometry;
use publication::offer;
use shared_log::{Log, LogError, OnLog, Parts, Publisher, clean_and_limit, open, set_connected};
use std::alloc::Global;
use std::io::{self, Write};
use std::process::ExitCode;
use std::thread::{Threads, join, yield_now};

const LINES: [&str; 3] = ["the first", "the second", "the last"];

/// Offers each line. A log that was just opened has room for them.
fn publish(log: &Log, publisher: &mut Publisher)
    requires { IsOf log.now publisher.old }
{
    let greatest = log.identity().geometry().max_message() as usize;
    for line in LINES {
        if line.len() <= greatest {
            let _ = offer(&mut OnLog::new(log), publisher, line.as_bytes());
        }
    }
}

/// As many messages as there are lines.
fn read(log: &Log, messages: &mut LogMessages, alloc: Global) -> Vec<Vec<u8>>
    requires { IsReaderOf log.now messages.old.reader }
{
    let mut found = Vec::new(alloc);
    for _ in 0..u64::MAX {
        match messages.next(log) {
            Ok(Some(message)) => {
                if found.push(message.bytes).is_err() || found.len() == LINES.len() {
                    return found;
                }
            }
            Ok(None) => yield_now(),
            Err(_) => return found,
        }
    }
    found
}

/// What one thread reads of a log while another publishes.
fn carry<R: Threads>(rt: &R, alloc: Global, geometry: Geometry) -> Result<Vec<Vec<u8>>, LogError> {
    let (log, parts) = open(alloc, geometry, 1, 1001, 0, 1)?;
    let Parts {
        publishers,
        mut readers,
        mut keeper,
    } = parts;
    let Ok(mut publishers) = Vec::from_array(alloc, publishers) else {
        return Err(LogError::Memory);
    };
    let mut publisher = publishers.remove(0);
    let Ok(mut messages) = LogMessages::new(alloc, readers.remove(0), 1_024) else {
        return Err(LogError::Memory);
    };
    set_connected(&log, &mut keeper, true);
    clean_and_limit(&log, &mut keeper);
    let (_, found) = join(
        rt,
        || publish(&log, &mut publisher),
        || read(&log, &mut messages, alloc),
    );
    Ok(found)
}

fn main(rt: HostRuntime) -> io::Result<ExitCode> {
    let Ok(geometry) = Geometry::new(65_536, 1_408, 7) else {
        return Ok(ExitCode::FAILURE);
    };
    let Ok(found) = carry(&rt, rt.alloc(), geometry) else {
        return Ok(ExitCode::FAILURE);
    };
    for message in &found {
        rt.stdout().write_all(message)?;
        println!(rt)?;
    }
    Ok(ExitCode::SUCCESS)
}
