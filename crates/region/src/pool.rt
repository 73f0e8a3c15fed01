//! The free bytes of a region, wherever they lie.
ghost use Rattle.std.specs.Prelude.{◌≡◌, ◌+◌, ◌≤◌, Bool, true, false, List, length};
ghost use Rattle.region.specs.Identity.{Identity, identity_code};
ghost use Rattle.region.specs.Pooled.{AreAll, pool_owns, stands, all_of};

use crate::access::WriteAccess;
use std::marker::{Model, Send};

/// The right to write those bytes of a region, from its first one on, that are free.
#[derive(Drop)]
pub struct Pool {
    pub ghost identity: { Identity } by { identity_code },
    pub ghost free: { List Bool },
}

impl Model for Pool {
    ghost also_owns = { λ p. pool_owns p.identity p.free };
}

// It names no thread.
unsafe impl Send for Pool {}

impl Pool {
    /// All bytes of a region are free.
    pub fn new(access: WriteAccess) -> Pool
        requires { access.at ≡ 0 }
        ensures { result ≡ record { identity = access.identity; free = all_of (length access.items) } }
    {
        let WriteAccess {} = access;
        Pool {}
    }

    /// Takes `len` bytes, from the place `at` on, which are free until then.
    pub fn take(self, at: usize, len: usize) -> (WriteAccess, Pool)
        requires { AreAll true at len self.free }
        ensures access { (result.0.identity ≡ self.identity) × (result.0.at ≡ at) × (length result.0.items ≡ len) }
        ensures rest { result.1 ≡ record self { free = stands false at len self.free } }
    {
        let Pool {} = self;
        (WriteAccess {}, Pool {})
    }

    /// Bytes that aren't free are free from here on.
    pub fn put(self, access: WriteAccess) -> Pool
        requires { (access.identity ≡ self.identity) × AreAll false access.at (length access.items) self.free }
        ensures { result ≡ record self { free = stands true access.at (length access.items) self.free } }
    {
        let Pool {} = self;
        let WriteAccess {} = access;
        Pool {}
    }
}
