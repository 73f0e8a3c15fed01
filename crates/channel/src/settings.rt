//! What the parts of a channel have set.

ghost use Rattle.std.specs.Prelude.{◌≡◌};

use crate::endpoint::Endpoint;
use crate::parameter::{Parameter, Setting};
use std::net::IpAddr;

/// What the parts of a channel have set, each parameter once at the most.
#[derive(Clone, Copy)]
pub struct Settings {
    pub endpoint: Option<Endpoint>,
    pub interface: Option<IpAddr>,
    pub ttl: Option<u8>,
    pub mtu: Option<u32>,
    pub term_length: Option<u32>,
    pub session_id: Option<i32>,
    pub initial_term_id: Option<i32>,
    pub term_id: Option<i32>,
    pub term_offset: Option<u32>,
}

impl Settings {
    ghost use Rattle.channel.specs.Settings.{is_set, nothing, with_setting};

    /// Nothing is set.
    pub fn none() -> Settings
        ensures { result ≡ nothing }
    {
        Settings {
            endpoint: None,
            interface: None,
            ttl: None,
            mtu: None,
            term_length: None,
            session_id: None,
            initial_term_id: None,
            term_id: None,
            term_offset: None,
        }
    }

    /// Whether the parameter is set.
    pub fn has(&self, parameter: Parameter) -> bool
        ensures { result ≡ is_set self.now parameter }
    {
        match parameter {
            Parameter::Endpoint => self.endpoint.is_some(),
            Parameter::Interface => self.interface.is_some(),
            Parameter::Ttl => self.ttl.is_some(),
            Parameter::Mtu => self.mtu.is_some(),
            Parameter::TermLength => self.term_length.is_some(),
            Parameter::SessionId => self.session_id.is_some(),
            Parameter::InitialTermId => self.initial_term_id.is_some(),
            Parameter::TermId => self.term_id.is_some(),
            Parameter::TermOffset => self.term_offset.is_some(),
        }
    }

    /// The same with this set.
    pub fn with(mut self, setting: Setting) -> Settings
        ensures { result ≡ with_setting self setting }
    {
        match setting {
            Setting::Endpoint(endpoint) => self.endpoint = Some(endpoint),
            Setting::Interface(address) => self.interface = Some(address),
            Setting::Ttl(hops) => self.ttl = Some(hops),
            Setting::Mtu(bytes) => self.mtu = Some(bytes),
            Setting::TermLength(bytes) => self.term_length = Some(bytes),
            Setting::SessionId(id) => self.session_id = Some(id),
            Setting::InitialTermId(id) => self.initial_term_id = Some(id),
            Setting::TermId(id) => self.term_id = Some(id),
            Setting::TermOffset(bytes) => self.term_offset = Some(bytes),
        }
        self
    }
}
