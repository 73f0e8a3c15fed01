//! Where the datagrams go, and what a part sets.

ghost use Rattle.std.specs.Prelude.{◌≡◌, ◌↔◌, IfOk, IfErr, IfSome, IfNone, IsTrue, Some, false};
ghost use Rattle.channel.specs.declared.endpoint.Endpoint.{Endpoint as AnyEndpoint};
ghost use Rattle.channel.specs.Channels.{IsPartFault};
ghost use Rattle.channel.specs.Settings.{Cuts, HasNoValue, IsEndpoint, IsNotCut, IsValueOf, Says, is_set, parameter_of};

use crate::fault::ChannelFault;
use crate::host::{Host, address_in, host_in};
use crate::parameter::{Parameter, Setting};
use crate::settings::Settings;
use crate::values::positive;

/// A host and a port.
#[derive(Clone, Copy, Debug)]
pub struct Endpoint {
    pub host: Host,
    /// 1 to 65,535.
    pub port: u16,
}

impl Endpoint {
    /// Whether the other is the same: the same port at the same address, or at a host of the same name, as both were spelled.
    pub fn is(&self, other: &Endpoint) -> bool
        ensures { IsTrue result ↔ (self.now ≡ other.now) }
    {
        self.port == other.port && self.host.is(&other.host)
    }
}

/// What stands before the last colon, and behind it.
fn cut(value: &str) -> Option<(&str, &str)>
    ensures cut { IfSome result (λ c. Cuts value.now c.0.now c.1.now) }
    ensures none { IfNone result (IsNotCut value.now) }
{
    value.rsplit_once(':')
}

/// The endpoint that a text is: a host, a colon, and a number from 1 to 65,535.
pub fn endpoint_in(value: &str) -> Option<Endpoint>
    ensures found { IfSome result (IsEndpoint value.now) }
    ensures none { IfNone result ((e : AnyEndpoint) → IsEndpoint value.now e → ⊥) }
{
    let (host, digits) = cut(value)?;
    let host = host_in(host)?;
    let port = positive(digits.as_bytes(), 65_535)? as u16;
    Some(Endpoint { host, port })
}

/// What the parameter's value sets.
fn setting_in(parameter: Parameter, value: &str) -> Option<Setting>
    ensures set { IfSome result (λ s. (parameter_of s ≡ parameter) × IsValueOf value.now s) }
    ensures none { IfNone result (HasNoValue parameter value.now) }
{
    match parameter {
        Parameter::Endpoint => match endpoint_in(value) {
            Some(endpoint) => Some(Setting::Endpoint(endpoint)),
            None => None,
        },
        Parameter::Interface => Some(Setting::Interface(address_in(value)?)),
        _ => parameter.number_setting(value.as_bytes()),
    }
}

/// What a part sets, behind others that have set `settings`.
pub fn part_setting<'a>(part: &'a str, settings: &Settings) -> Result<Setting, ChannelFault<'a>>
    ensures set { IfOk result (λ s. Says part.now s × (is_set settings.now (parameter_of s) ≡ false)) }
    ensures fault { IfErr result (λ f. IsPartFault settings.now part.now f) }
{
    let Some((name, value)) = part.split_once('=') else {
        return Err(ChannelFault::Part(part));
    };
    let Some(parameter) = Parameter::named(name) else {
        return Err(ChannelFault::Unknown(name));
    };
    if settings.has(parameter) {
        return Err(ChannelFault::Repeated(parameter));
    }
    match setting_in(parameter, value) {
        Some(setting) => Ok(setting),
        None => Err(ChannelFault::Value(parameter, value)),
    }
}
