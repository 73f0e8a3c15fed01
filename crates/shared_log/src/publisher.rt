//! A publisher of a log.

ghost use Rattle.std.specs.Prelude.{◌≡◌};
ghost use Rattle.log_rule.specs.Shares.{claimed_bytes};
ghost use Rattle.shared_log.specs.Handles.{OwnsClaims};

pub(crate) mod calls;
pub(crate) mod meeting;
pub(crate) mod numbering;
pub(crate) mod retiring;

use crate::handle::Handle;
use position::Identity;
use std::marker::Model;

/// A publisher of a log.
#[derive(Drop)]
pub struct Publisher {
    pub(crate) handle: Handle,
    pub(crate) number: u64,
    /// How many bytes its claims cover.
    pub(crate) share: u64,
}

impl Model for Publisher {
    ghost use Rattle.std.specs.Prelude.{◌≡◌};
    ghost use Rattle.shared_log.specs.Steps.Handles.{PublisherValue};
    ghost use Rattle.shared_log.specs.Handles.{IsPublisher};

    ghost Value = { PublisherValue };

    ghost view = { λ p. p.handle.pass };

    ghost invariant = { λ p. IsPublisher p.handle.pass p.handle.home p.handle.freed p.number p.share p.handle.identity p.handle.start };
}

impl Publisher {
    /// Its number, 0 to 7.
    pub fn number(&self) -> u64
        ensures is { result ≡ self.now.pass.number }
        ensures owns { OwnsClaims self.now.pass }
    {
        self.number
    }

    /// How many bytes its claims cover.
    pub fn share(&self) -> u64
        ensures { result ≡ claimed_bytes self.now.pass }
    {
        self.share
    }

    /// Which stream its log carries.
    pub fn identity(&self) -> Identity
        ensures { result ≡ self.now.pass.identity }
    {
        self.handle.identity
    }

    /// The position at which that begins.
    pub fn start(&self) -> u64
        ensures { result ≡ self.now.pass.start }
    {
        self.handle.start
    }
}
