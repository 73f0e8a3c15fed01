//! A subscriber's plan.

ghost use Rattle.std.specs.Prelude.{◌≡◌, ◌<◌, ◌^◌, IfErr, IfOk};
ghost use Rattle.theory.specs.Position.{IsTermLength};
ghost use Rattle.options.specs.Ends.Plans.{ExplainsNoSubscribePlan, IsSubscribeFault, IsSubscribePlanOf, IsSubscribePlanWith, greatest_term_of, quiet_of};

use crate::ends::end_plan::{SECOND, end_plan};
use crate::ends::fault::EndFault;
use crate::ends::ids::Drawn;
use crate::ends::options::SubscribeOptions;
use crate::ends::plans::SubscribePlan;
use channel::{Channel, read_channel};
use position::{Geometry, GeometryError};

/// The longest term that there is.
const GREATEST_TERM: u32 = 16_777_216;

/// The least MTU, which fits each term.
const LEAST_MTU: u32 = 256;

/// The number of seconds that says that nothing was told.
const NOT_TOLD: u32 = u32::MAX;

/// For how many seconds without a datagram a subscriber that ends with its stream waits where nothing was told.
const ONCE_QUIET: u32 = 30;

/// After how many seconds without a datagram it ends.
fn quiet(options: &SubscribeOptions<'_>) -> u32
    ensures { result ≡ quiet_of options.now }
{
    if options.once && options.quiet == NOT_TOLD {
        return ONCE_QUIET;
    }
    options.quiet
}

/// The longest term that it takes: the one that the channel names, or the longest that there is.
fn greatest_term<'a>(channel: &Channel) -> Result<u32, EndFault<'a>>
    ensures made { IfOk result (λ bytes. (bytes ≡ greatest_term_of channel.now) × IsTermLength bytes) }
    ensures fault { IfErr result (λ f. (f ≡ EndFault.TermLength (greatest_term_of channel.now)) × (¬ IsTermLength (greatest_term_of channel.now))) }
{
    let bytes = channel.term_length.unwrap_or(GREATEST_TERM);
    match Geometry::new(bytes, LEAST_MTU, 0) {
        Err(GeometryError::TermLength) => Err(EndFault::TermLength(bytes)),
        _ => Ok(bytes),
    }
}

/// The plan of a channel that was read.
fn plan_of<'a>(
    options: &SubscribeOptions<'a>,
    drawn: Drawn,
    channel: &Channel,
) -> Result<SubscribePlan, EndFault<'a>>
    requires { options.now.end.stream < 2 ^ 31 }
    ensures made { IfOk result (λ p. IsSubscribePlanWith options.now drawn channel.now p) }
    ensures fault { IfErr result (λ f. IsSubscribeFault options.now.end channel.now f) }
{
    let greatest_term = greatest_term(channel)?;
    let end = end_plan(&options.end, channel)?;
    Ok(SubscribePlan {
        end,
        session: channel.session_id,
        greatest_term,
        receiver: drawn.receiver,
        messages: options.messages,
        quiet: u64::from(quiet(options)) * SECOND,
        once: options.once,
        sessions: options.sessions,
    })
}

/// What a subscriber is made of, with a drawn id. The channel is judged first, then its term length, then the rates.
pub fn subscribe_plan<'a>(
    options: &SubscribeOptions<'a>,
    drawn: Drawn,
) -> Result<SubscribePlan, EndFault<'a>>
    requires { options.now.end.stream < 2 ^ 31 }
    ensures made { IfOk result (λ p. IsSubscribePlanOf options.now drawn p) }
    ensures fault { IfErr result (λ f. ExplainsNoSubscribePlan options.now f) }
{
    match read_channel(options.end.channel) {
        Ok(channel) => plan_of(options, drawn, &channel),
        Err(fault) => Err(EndFault::Channel(fault)),
    }
}
