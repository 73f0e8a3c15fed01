//! A publisher's plan.

ghost use Rattle.std.specs.Prelude.{◌≡◌, ◌<◌, ◌^◌, ◌*◌, ℕ, pos, IfErr, IfOk, IfSome, IfNone, IsErrOf};
ghost use Rattle.theory.specs.Position.{IsGeometry, IsMtu, IsTermLength, count_of};
ghost use Rattle.position.specs.Openings.{IsStart};
ghost use Rattle.options.specs.Ends.Plans.{ExplainsNoPublishPlan, IsPlace, IsPublishFault, IsPublishPlanOf, IsPublishPlanWith, StartsAt, are_several, first_term, geometry_of, mtu_of, term_of};

use crate::ends::end_plan::{SECOND, end_plan};
use crate::ends::fault::EndFault;
use crate::ends::ids::Drawn;
use crate::ends::options::PublishOptions;
use crate::ends::plans::PublishPlan;
use channel::{Channel, Start, read_channel};
use position::{Geometry, GeometryError};

/// The bytes of a term where none are named.
const TERM: u32 = 1_048_576;

/// The most bytes of a datagram to this machine where none are named.
const MTU_HERE: u32 = 7_680;

/// The most bytes of one to another machine.
const MTU_AWAY: u32 = 1_408;

/// The id of the first term: the one that is named, or a drawn one.
fn first_term(start: Option<Start>, drawn: Drawn) -> i32
    ensures { result ≡ first_term start drawn }
{
    match start {
        None => drawn.initial_term_id,
        Some(start) => start.initial_term_id,
    }
}

/// The bytes of a term, 1 MiB where none are named.
fn term_in(channel: &Channel) -> u32
    ensures { result ≡ term_of channel.now }
{
    channel.term_length.unwrap_or(TERM)
}

/// The most bytes of a datagram: where none are named 7,680 to this machine alone, and 1,408 to another one or to several
/// endpoints.
fn mtu_in(channel: &Channel, several: bool) -> u32
    ensures { result ≡ mtu_of channel.now several }
{
    let usual = if channel.transport.endpoint.host.is_here() && !several {
        MTU_HERE
    } else {
        MTU_AWAY
    };
    channel.mtu.unwrap_or(usual)
}

/// The shape of the channel's stream, with the usual lengths where none are named.
fn shape(channel: &Channel, several: bool, drawn: Drawn) -> Result<Geometry, GeometryError>
    ensures made { IfOk result (λ g. (g ≡ geometry_of channel.now several drawn) × IsGeometry g) }
    ensures term_length { IsErrOf result GeometryError.TermLength → ¬ IsTermLength (term_of channel.now) }
    ensures mtu { IsErrOf result GeometryError.Mtu → IsTermLength (term_of channel.now) × (¬ IsMtu (term_of channel.now) (mtu_of channel.now several)) }
{
    Geometry::new(
        term_in(channel),
        mtu_in(channel, several),
        first_term(channel.start, drawn),
    )
}

/// The position at which a stream starts, if it is one.
fn start_in(geometry: &Geometry, start: Option<Start>) -> Option<u64>
    ensures found { IfSome result (λ at. StartsAt start geometry.now at × IsStart geometry.now at) }
    ensures none { IfNone result ((at : ℕ) → StartsAt start geometry.now at → ⊥) }
{
    match start {
        None => Some(beginning(geometry)),
        Some(start) => named_start(geometry, start),
    }
}

/// The stream's first position.
#[tactic(auto, using(crate::proofs::Starts::first))]
fn beginning(geometry: &Geometry) -> u64
    ensures { (result ≡ 0) × IsStart geometry.now 0 }
{
    let _term_length = geometry.term_length();
    0
}

/// How many terms stand before the one with this id, if it isn't before the first one.
fn count_in(geometry: &Geometry, term_id: i32) -> Option<u32>
    ensures found { IfSome result (λ n. (count_of geometry.now term_id ≡ pos n) × (n < 2 ^ 31)) }
    ensures none { IfNone result ((n : ℕ) → count_of geometry.now term_id ≡ pos n → ⊥) }
{
    let count = term_id.wrapping_sub(geometry.initial_term_id());
    u32::try_from(count).ok()
}

/// The position that a start names: a term id that isn't before the first one, and an offset in that term, a multiple of
/// 32.
fn named_start(geometry: &Geometry, start: Start) -> Option<u64>
    ensures found { IfSome result (λ at. IsPlace start geometry.now at × IsStart geometry.now at) }
    ensures none { IfNone result ((at : ℕ) → IsPlace start geometry.now at → ⊥) }
{
    let count = count_in(geometry, start.term_id)?;
    let length = geometry.term_length();
    if !start.term_offset.is_multiple_of(32) || start.term_offset >= length {
        return None;
    }
    Some(u64::from(count) * u64::from(length) + u64::from(start.term_offset))
}

/// So many seconds.
fn nanoseconds(seconds: u32) -> u64
    ensures { result ≡ seconds * 1000000000 }
{
    u64::from(seconds) * SECOND
}

/// Whether there are further endpoints.
fn are_several(options: &PublishOptions<'_>) -> bool
    ensures { result ≡ are_several options.now }
{
    !options.to.as_slice().is_empty()
}

/// The plan of a channel that was read.
fn plan_of<'a>(
    options: &PublishOptions<'a>,
    drawn: Drawn,
    channel: &Channel,
) -> Result<PublishPlan, EndFault<'a>>
    requires { options.now.end.stream < 2 ^ 31 }
    ensures made { IfOk result (λ p. IsPublishPlanWith options.now drawn channel.now p) }
    ensures fault { IfErr result (λ f. IsPublishFault options.now channel.now drawn f) }
{
    let several = are_several(options);
    let geometry = match shape(channel, several, drawn) {
        Ok(geometry) => geometry,
        Err(GeometryError::TermLength) => return Err(EndFault::TermLength(term_in(channel))),
        Err(GeometryError::Mtu) => return Err(EndFault::Mtu(mtu_in(channel, several))),
    };
    let Some(start) = start_in(&geometry, channel.start) else {
        return Err(EndFault::Start);
    };
    let Ok(end) = end_plan(&options.end, channel) else {
        return Err(EndFault::Rates);
    };
    Ok(PublishPlan {
        end,
        geometry,
        session: channel.session_id.unwrap_or(drawn.session),
        start,
        linger: nanoseconds(options.linger),
        wait: nanoseconds(options.wait),
    })
}

/// What a publisher is made of, with a drawn session and first term where none are named. The channel is judged first, then
/// the term length, the MTU, the start and the rates.
pub fn publish_plan<'a>(
    options: &PublishOptions<'a>,
    drawn: Drawn,
) -> Result<PublishPlan, EndFault<'a>>
    requires { options.now.end.stream < 2 ^ 31 }
    ensures made { IfOk result (λ p. IsPublishPlanOf options.now drawn p) }
    ensures fault { IfErr result (λ f. ExplainsNoPublishPlan options.now drawn f) }
{
    match read_channel(options.end.channel) {
        Ok(channel) => plan_of(options, drawn, &channel),
        Err(fault) => Err(EndFault::Channel(fault)),
    }
}
