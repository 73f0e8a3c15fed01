//! A publisher's ways: to its channel's endpoint, and to others.

ghost use Rattle.std.specs.Prelude.{◌≡◌, ◌≤◌, true, false, length, All, IfErr, IfOk};
ghost use Rattle.options.specs.Ends.Ways.{AreWays, ExplainsNoWays, IsLed, IsTextFault, IsWay, IsWayFault, LeadsOn, LeadsElsewhere};

use crate::ends::way_fault::WayFault;
use channel::{Endpoint, Transport, endpoint_in};
use std::alloc::Global;

/// How many ways there are at the most.
const WAYS: usize = 8;

/// The way to the endpoint that a text is, and else as the channel says.
fn way_in<'a>(channel: &Transport, text: &'a str) -> Result<Transport, WayFault<'a>>
    ensures made { IfOk result (λ way. IsWay channel.now text.now way) }
    ensures fault { IfErr result (λ f. IsTextFault channel.now text.now f) }
{
    let Some(endpoint) = endpoint_in(text) else {
        return Err(WayFault::Endpoint(text));
    };
    match channel.to_endpoint(&endpoint) {
        Some(way) => Ok(way),
        None => Err(WayFault::Family(text)),
    }
}

/// Whether one of the ways leads to this endpoint.
fn is_led(ways: &[Transport], endpoint: &Endpoint) -> bool
    ensures led { result ≡ true → IsLed ways.now endpoint.now }
    ensures elsewhere { result ≡ false → All (LeadsElsewhere endpoint.now) ways.now }
{
    for way in ways {
        if way.endpoint.is(endpoint) {
            return true;
        }
    }
    false
}

/// One way more, to an endpoint to which none of these leads.
fn next_way<'a>(
    channel: &Transport,
    ways: &[Transport],
    text: &'a str,
) -> Result<Transport, WayFault<'a>>
    ensures made { IfOk result (λ way. IsWay channel.now text.now way × All (LeadsElsewhere way.endpoint) ways.now) }
    ensures fault { IfErr result (λ f. IsWayFault channel.now ways.now text.now f) }
{
    let way = way_in(channel, text)?;
    if is_led(ways, &way.endpoint) {
        return Err(WayFault::Twice(text));
    }
    Ok(way)
}

/// The ways of a publisher: the channel's own, and one to each endpoint that is told besides, in order.
///
/// The faults are judged in this order: more than seven endpoints; and then, text by text, that it is no endpoint, that its
/// address doesn't go with the channel's interface or time to live, and that the channel's endpoint is the same, or one before
/// it. `Memory` comes where memory was refused.
pub fn ways_of<'a>(
    alloc: Global,
    channel: &Transport,
    to: &[&'a str],
) -> Result<Vec<Transport>, WayFault<'a>>
    ensures made { IfOk result (λ ways. AreWays channel.now to.now ways.items) }
    ensures few { IfOk result (λ ways. length ways.items ≤ 8) }
    ensures fault { IfErr result (λ f. ExplainsNoWays channel.now to.now f) }
{
    if to.len() >= WAYS {
        return Err(WayFault::Many);
    }
    let mut ways = Vec::new(alloc);
    ways.push(*channel)?;
    for text in to {
        let way = match next_way(channel, &ways, *text) {
            Ok(way) => way,
            Err(fault) => return Err(fault),
        };
        ways.push(way)?;
    }
    Ok(ways)
}
