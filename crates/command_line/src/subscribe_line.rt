//! A line of `subscribe`.

ghost use Rattle.std.specs.Prelude.{◌≡◌, ◌<◌, ◌^◌, [], map, IfErr, IfOk, OnOk};
ghost use Rattle.clap.specs.Words.{app_of, fault_of as clap_faults, found_of, matches_of, rows_of};
ghost use Rattle.command_line.specs.Lines.{IsSubscribeOf, subscribe_app};
ghost use Rattle.command_line.specs.Refusals.{IsFaultOf};

use crate::end_line::{command_of, shared_of};
use crate::fault::LineFault;
use crate::flag::{flag_of, with_flag};
use crate::number::{Number, number_of, with_numbers};
use crate::parse::parsed;
use clap::{ArgMatches, Command};
use options::SubscribeOptions;
use std::alloc::{AllocError, Global};

const MESSAGE_LIMIT: Number = Number {
    name: "messages",
    value: "N",
    heading: None,
    least: 1,
    most: u64::MAX,
    otherwise: u64::MAX,
    help: "End after so many messages, from 1 on [default: never]",
};

const QUIET: Number = Number {
    name: "quiet",
    value: "SECONDS",
    heading: None,
    least: 1,
    most: 4_294_967_295,
    otherwise: 4_294_967_295,
    help: "End after so long without a datagram of the stream, from 1 on [default: never, with --once 30]",
};

const SESSIONS: Number = Number {
    name: "sessions",
    value: "N",
    heading: None,
    least: 1,
    most: 16,
    otherwise: 16,
    help: "Follow at most so many sessions at a time, 1 to 16 [default: 16]",
};

const MORE: &str = "Example:
  mdriver subscribe 'aeron:udp?endpoint=127.0.0.1:40123' > lines

Parameters of the channel, separated by |:
  endpoint=HOST:PORT  an IPv4 address, an IPv6 address in brackets or a name, and a port from 1 to 65535
  interface=ADDRESS   the address that is listened at [default: the endpoint's; any is 0.0.0.0 or [::]]
  ttl=HOPS            the time to live of datagrams, 1 to 255, for IPv4 alone [default: the system's]
  term-length=BYTES   the longest term that is taken, a power of two from 64k to 16m [default: 16m]
  session-id=ID       the one session that is taken [default: any]
The others of a publisher's channel are taken, and say nothing here.

Counters, on standard error:
  session      the session that the line is of, or none
  messages     how many were written, of all sessions; this-second: how many of them since the line before
  least, rebuilt, high-water
               in bytes of the stream: up to where it was written; up to where nothing is missing; the furthest
               that came
  naks         how many datagrams were sent that ask for what was lost
  lost         how many calls of the socket failed
  strangers    how many datagrams came that no followed session's publisher sent
  refused      how many datagrams that came were no frame, by what was wrong with them

Exit status:
  0  it ended as it was told: by --messages, by --quiet, or with --once by the stream's end, all of it written
  1  an error, told in one line
  2  the command line, the channel or the rates are refused
  3  a stream was cut off or broken off; the last line names its session and position:
     - with --once, it was silent for --quiet before its end was announced and all of it was written;
     - its session was closed or displaced before its end was announced and all of it was written;
     - something that it lacked couldn't be had any more (lost);
     - its publisher announced its end as broken off, since its input had a fault (broken off).
     A stream that is still open when --messages or --quiet ends the subscriber doesn't count.";

/// The command.
fn command<'a>(alloc: Global) -> Result<Command<'a>, AllocError>
    ensures { IfOk result (λ r. app_of r ≡ subscribe_app) }
{
    let command = command_of(
        alloc,
        "subscribe",
        "mdriver subscribe",
        "Write each message to standard output as a line",
        MORE,
    )?;
    let command = with_numbers(alloc, command, &[MESSAGE_LIMIT, QUIET, SESSIONS])?;
    with_flag(alloc, command, "once", "End with the stream")
}

/// What the options that were found tell.
fn subscribe_of<'a>(matches: &ArgMatches<'a>) -> SubscribeOptions<'a>
    ensures told { IsSubscribeOf (rows_of (found_of matches.now)) result }
    ensures stream { result.end.stream < 2 ^ 31 }
{
    SubscribeOptions {
        end: shared_of(matches),
        messages: number_of(matches, MESSAGE_LIMIT),
        quiet: number_of(matches, QUIET) as u32,
        once: flag_of(matches, "once"),
        sessions: number_of(matches, SESSIONS) as u32,
    }
}

/// What the words of a line of `subscribe` tell; the first of them is `subscribe`.
pub fn subscribe_options<'a>(
    alloc: Global,
    words: &'a [&'a str],
) -> Result<SubscribeOptions<'a>, LineFault>
    ensures told { IfOk result (λ o. IsSubscribeOf (matches_of subscribe_app (map (λ s. s.now) words.entry.now)) o) }
    ensures stream { IfOk result (λ o. o.end.stream < 2 ^ 31) }
    ensures passed { OnOk result (clap_faults subscribe_app (map (λ s. s.now) words.entry.now) ≡ []) }
    ensures fault { IfErr result (IsFaultOf (clap_faults subscribe_app (map (λ s. s.now) words.entry.now))) }
{
    match parsed(command(alloc), words) {
        Ok(matches) => Ok(subscribe_of(&matches)),
        Err(fault) => Err(fault),
    }
}
