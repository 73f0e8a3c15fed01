//! What the plans of both ends share.

ghost use Rattle.std.specs.Prelude.{◌<◌, ◌^◌, IfErr, IfOk};
ghost use Rattle.options.specs.Ends.Plans.{IsEndPlan, IsRatesFault};

use crate::ends::fault::EndFault;
use crate::ends::options::EndOptions;
use crate::ends::plans::EndPlan;
use channel::Channel;
use loss_injector::Rates;
use messages::Form;

/// The nanoseconds of a second.
pub const SECOND: u64 = 1_000_000_000;

/// What both ends are made of.
pub(crate) fn end_plan<'a>(
    options: &EndOptions<'a>,
    channel: &Channel,
) -> Result<EndPlan, EndFault<'a>>
    requires { options.now.stream < 2 ^ 31 }
    ensures made { IfOk result (λ p. IsEndPlan options.now channel.now p) }
    ensures fault { IfErr result (λ f. IsRatesFault options.now f) }
{
    let Ok(rates) = Rates::new(options.loss, options.repeat, options.hold) else {
        return Err(EndFault::Rates);
    };
    let form = if options.blocks {
        Form::Blocks
    } else {
        Form::Lines
    };
    Ok(EndPlan {
        transport: channel.transport,
        stream: options.stream as i32,
        rates,
        seed: options.seed,
        form,
        counters: options.counters,
    })
}
