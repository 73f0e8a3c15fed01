//! A line of `publish`.

ghost use Rattle.std.specs.Prelude.{◌≡◌, ◌<◌, ◌^◌, [], map, IfErr, IfOk, OnOk};
ghost use Rattle.clap.specs.Words.{app_of, fault_of as clap_faults, found_of, matches_of, rows_of};
ghost use Rattle.command_line.specs.Lines.{IsPublishOf, publish_app};
ghost use Rattle.command_line.specs.Refusals.{IsFaultOf};

use crate::end_line::{command_of, shared_of};
use crate::fault::LineFault;
use crate::list::{list_of, with_list};
use crate::number::{Number, number_of, with_numbers};
use crate::parse::parsed;
use clap::{ArgMatches, Command};
use options::PublishOptions;
use std::alloc::{AllocError, Global};

const LINGER: Number = Number {
    name: "linger",
    value: "SECONDS",
    heading: None,
    least: 1,
    most: 1_000_000,
    otherwise: 15,
    help: "Give up after so long without word of a subscriber that was heard, 1 to 1000000 [default: 15]",
};

const WAIT: Number = Number {
    name: "wait",
    value: "SECONDS",
    heading: None,
    least: 1,
    most: 4_294_967_295,
    otherwise: 4_294_967_295,
    help: "Give up after so long in which no subscriber was ever heard; with --to begin then without those that weren't, from 1 on [default: as long as it takes]",
};

/// The option that names endpoints besides the channel's.
const TO: &str = "to";

const TO_HELP: &str = "Send to this endpoint too, each message to each; up to seven times";

const MORE: &str = "Examples:
  mdriver publish 'aeron:udp?endpoint=127.0.0.1:40123' < lines
  mdriver publish 'aeron:udp?endpoint=127.0.0.1:40123' --to 127.0.0.1:40124 < lines

Parameters of the channel, separated by |:
  endpoint=HOST:PORT  an IPv4 address, an IPv6 address in brackets or a name, and a port from 1 to 65535
  interface=ADDRESS   the address that is sent from [default: any]
  ttl=HOPS            the time to live of datagrams, 1 to 255, for IPv4 alone [default: the system's]
  term-length=BYTES   a power of two from 64k to 16m [default: 1m]
  mtu=BYTES           a multiple of 32 from 256 to an eighth of the term, at most 65504 [default: 7680 to this machine with no --to, else 1408]
  session-id=ID       the stream's session [default: drawn]
  init-term-id=ID     with term-id=ID and term-offset=BYTES: where the stream starts [default: at 0, the id drawn]

A message has at most an eighth of the term. The program ends by itself once its input has ended
(Ctrl-D at a terminal) and all is written; a signal loses the lines that aren't delivered yet.

Counters, on standard error (with --to a line for each endpoint):
  session      the stream's session
  messages     how many were accepted from the input; recent: how many of them since the line before
  tail, told   in bytes of the stream: how much was accepted; how much a subscriber has acknowledged
  datagrams    how many were sent; resends: how many of them were sent again, for NAKs
  naks         how many datagrams came that ask for what was lost
  lost         how many calls of the socket failed
  disbelieved  how many acknowledgements named more than was sent
  refused      how many datagrams that came were no frame, by what was wrong with them

Exit status:
  0  each endpoint, the channel's and those of --to, has acknowledged everything: at each one subscriber
     has written all, from the first message to the last
  1  an error, told in one line
  2  the command line, the channel, an endpoint or the rates are refused
  3  it gave up, or all was written at an endpoint but not by one subscriber; a line says why";

/// The command.
fn command<'a>(alloc: Global) -> Result<Command<'a>, AllocError>
    ensures { IfOk result (λ r. app_of r ≡ publish_app) }
{
    let command = command_of(
        alloc,
        "publish",
        "mdriver publish",
        "Publish each line of standard input as a message",
        MORE,
    )?;
    let command = with_list(alloc, command, TO, "HOST:PORT", TO_HELP)?;
    with_numbers(alloc, command, &[LINGER, WAIT])
}

/// What the options that were found tell. The fault is that memory was refused.
fn publish_of<'a>(alloc: Global, matches: &ArgMatches<'a>) -> Result<PublishOptions<'a>, LineFault>
    ensures told { IfOk result (IsPublishOf (rows_of (found_of matches.now))) }
    ensures stream { IfOk result (λ o. o.end.stream < 2 ^ 31) }
    ensures fault { IfErr result (λ fault. fault ≡ LineFault.Memory) }
{
    let Ok(to) = list_of(alloc, matches, TO) else {
        return Err(LineFault::Memory);
    };
    Ok(PublishOptions {
        end: shared_of(matches),
        to,
        linger: number_of(matches, LINGER) as u32,
        wait: number_of(matches, WAIT) as u32,
    })
}

/// What the words of a line of `publish` tell; the first of them is `publish`.
pub fn publish_options<'a>(
    alloc: Global,
    words: &'a [&'a str],
) -> Result<PublishOptions<'a>, LineFault>
    ensures told { IfOk result (λ o. IsPublishOf (matches_of publish_app (map (λ s. s.now) words.entry.now)) o) }
    ensures stream { IfOk result (λ o. o.end.stream < 2 ^ 31) }
    ensures passed { OnOk result (clap_faults publish_app (map (λ s. s.now) words.entry.now) ≡ []) }
    ensures fault { IfErr result (IsFaultOf (clap_faults publish_app (map (λ s. s.now) words.entry.now))) }
{
    match parsed(command(alloc), words) {
        Ok(matches) => publish_of(alloc, &matches),
        Err(fault) => Err(fault),
    }
}
