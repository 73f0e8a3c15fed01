//! The rights to a region's bytes. They take no memory: what a contract says of them is ghost state.
ghost use Rattle.std.specs.Prelude.{◌≡◌, ℕ, ◌+◌, ◌-◌, ◌^◌, ◌<◌, ◌≤◌, List, [], ◌++◌, length, take, drop};
ghost use base.Fml.{ftrue};
ghost use Rattle.region.specs.Identity.{Identity, Round, identity_code, round_code, start_address};
ghost use Rattle.region.specs.Owned.{write_owns, read_owns, read_shares};

use crate::region::{Region, RegionStart};
use std::marker::{Model, Send, Sync};
use std::slice;

/// The right to write a run of bytes: `items`, from the place `at` of a region on.
#[derive(Drop)]
pub struct WriteAccess {
    pub ghost identity: { Identity } by { identity_code },
    pub ghost at: { ℕ },
    pub ghost items: { List ℕ },
}

impl Model for WriteAccess {
    ghost also_owns = { λ w. write_owns w.identity w.at w.items };
}

/// `count` of 2^63 parts of the right to read a run of bytes: `items`, from the place `at` of a region on.
#[derive(Drop)]
pub struct ReadAccess {
    pub ghost round: { Round } by { round_code },
    pub ghost count: { ℕ },
    pub ghost identity: { Identity } by { identity_code },
    pub ghost at: { ℕ },
    pub ghost items: { List ℕ },
    ghost small: { length items < 2 ^ 63 },
}

impl Model for ReadAccess {
    ghost also_owns = { λ r. read_owns r.round r.identity r.at r.items r.count };

    ghost also_shares = { λ r _ κ. read_shares r.round r.identity r.at r.items r.count κ };
}

/// What lies in a slot: the right to write bytes, a part of the right to read some, or neither.
#[derive(Drop)]
pub struct Access {
    pub write: WriteAccess,
    pub read: ReadAccess,
}

/// Which region it is.
#[derive(Drop)]
pub struct RegionKey {
    pub ghost identity: { Identity } by { identity_code },
}

impl Model for RegionKey {
    ghost also_owns = { λ _. ftrue };
}

// None names a thread.
unsafe impl Send for WriteAccess {}

unsafe impl Send for ReadAccess {}

unsafe impl Sync for ReadAccess {}

unsafe impl Send for RegionKey {}

impl Access {
    /// Neither.
    #[inline(always)]
    pub fn none() -> Access
        ensures { (result.write.items ≡ []) × (result.read.count ≡ 0) }
    {
        Access {
            write: WriteAccess::none(),
            read: ReadAccess::none(),
        }
    }

    /// The right to write, alone.
    #[inline(always)]
    pub fn of_write(write: WriteAccess) -> Access
        ensures { (result.write ≡ write) × (result.read.count ≡ 0) }
    {
        Access {
            write,
            read: ReadAccess::none(),
        }
    }

    /// The right to read, alone.
    #[inline(always)]
    pub fn of_read(read: ReadAccess) -> Access
        ensures { (result.read ≡ read) × (result.write.items ≡ []) }
    {
        Access {
            write: WriteAccess::none(),
            read,
        }
    }
}

impl WriteAccess {
    /// No byte at all.
    #[inline(always)]
    pub fn none() -> WriteAccess
        ensures { result.items ≡ [] }
    {
        WriteAccess {}
    }

    /// The region that the bytes are of.
    pub fn key(&self) -> RegionKey
        ensures { result.identity ≡ self.now.identity }
    {
        RegionKey {}
    }

    /// The first `mid` bytes, and the others.
    #[inline(always)]
    pub fn split_at(self, mid: usize) -> (WriteAccess, WriteAccess)
        requires { mid ≤ length self.items }
        ensures front { result.0 ≡ record self { items = take mid self.items } }
        ensures back { result.1 ≡ record self { at = self.at + mid; items = drop mid self.items } }
    {
        let WriteAccess {} = self;
        (WriteAccess {}, WriteAccess {})
    }

    /// Two runs, the other behind this one, are one.
    #[inline(always)]
    pub fn append(self, other: WriteAccess) -> WriteAccess
        requires { (other.identity ≡ self.identity) × (other.at ≡ self.at + length self.items) }
        ensures { result ≡ record self { items = self.items ++ other.items } }
    {
        let WriteAccess {} = self;
        let WriteAccess {} = other;
        WriteAccess {}
    }

    /// A round of reading begins: the bytes stay as they are until all its parts are back.
    #[inline(always)]
    pub fn begin_reading(self, region: &Region) -> ReadAccess
        requires { (self.identity ≡ region.now.identity) × (length self.items < 2 ^ 63) }
        ensures whole { result.count ≡ 2 ^ 63 }
        ensures same { (result.identity ≡ self.identity) × (result.at ≡ self.at)
            × (result.items ≡ self.items) }
    {
        let WriteAccess {} = self;
        ReadAccess {}
    }
}

impl ReadAccess {
    /// No part at all.
    #[inline(always)]
    pub fn none() -> ReadAccess
        ensures { result.count ≡ 0 }
    {
        ReadAccess {}
    }

    /// `count` parts, and the others.
    #[inline(always)]
    pub fn split(self, count: usize) -> (ReadAccess, ReadAccess)
        requires { (count ≤ self.count) × (self.count ≤ 2 ^ 63) }
        ensures one { result.0 ≡ record self { count = count } }
        ensures rest { result.1 ≡ record self { count = self.count - count } }
    {
        let ReadAccess {} = self;
        (ReadAccess {}, ReadAccess {})
    }

    /// Parts of one round are put together.
    #[inline(always)]
    pub fn join(self, other: ReadAccess) -> ReadAccess
        requires round { (other.round.life ≡ self.round.life)
            × (other.round.book ≡ self.round.book) }
        requires parts { (0 < self.count) × (self.count + other.count ≤ 2 ^ 63) }
        ensures { result ≡ record self { count = self.count + other.count } }
    {
        let ReadAccess {} = self;
        let ReadAccess {} = other;
        ReadAccess {}
    }

    /// The first `len` bytes, which lie `at` bytes behind the region's start. Any part shows them.
    #[inline(always)]
    pub fn bytes<'a>(
        &'a self,
        region: &'a Region,
        start: RegionStart,
        at: usize,
        len: usize,
    ) -> &'a [u8]
        requires some { 0 < self.now.count }
        requires region { self.now.identity ≡ region.now.identity }
        requires place { (start.address ≡ start_address self.now.identity) × (at ≡ self.now.at)
            × (len ≤ length self.now.items) }
        ensures { result.now ≡ take len self.now.items }
    {
        unsafe { slice::from_raw_parts(start.address.cast_const().add(at), len) }
    }

    /// All parts are back, and the round is over: the bytes are as they were, and may be written.
    #[inline(always)]
    pub fn end_reading(self) -> WriteAccess
        requires { self.count ≡ 2 ^ 63 }
        ensures { result ≡ record { identity = self.identity; at = self.at; items = self.items } }
    {
        let ReadAccess {} = self;
        WriteAccess {}
    }
}
