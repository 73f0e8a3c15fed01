//! A block of memory whose bytes are lent for a lifetime of its own.
ghost use Rattle.std.specs.Prelude.{◌≡◌, ◌<◌, [], ◌∷◌, length};
ghost use Rattle.std.specs.Vec.{vec_len, vec_ptr};
ghost use base.Fml.{ftrue, flft};
ghost use denote.Sharing.{one};
ghost use Rattle.region.specs.Identity.{Identity, identity_code, start_address};
ghost use Rattle.region.specs.Owned.{region_owns, way_back};

use crate::access::{RegionKey, WriteAccess};
use std::marker::{Model, Move, Owns, Send, Sync};

/// A `Vec` whose bytes are out.
pub(crate) struct Emptied {
    vec: Vec<u8>,
}

impl Owns for Emptied {
    ghost Value = { Identity };

    ghost coded = { identity_code };

    ghost shr_at = { λ _ _ _. ftrue };
}

impl Move for Emptied {
    ghost own_val = { λ i vs. way_back (length i.names) i.block i.first Inside (λ v. v.vec.items)
        (λ v. Fields.own_val v vs) };
}

/// A block of memory. A `&` to it shows that its bytes may be reached; dropping it gives the memory back.
pub struct Region {
    memory: Emptied,
    pub ghost identity: { Identity } by { identity_code },
    ghost same: { memory ≡ identity },
}

impl Model for Region {
    ghost also_owns = { λ r. region_owns r.identity };

    ghost also_shares = { λ r _. one (λ q. flft (r.identity.life ∷ []) q) };
}

/// The address of a region's first byte.
#[derive(Clone, Copy)]
pub struct RegionStart {
    pub address: *mut u8,
}

// A `&` to it shows nothing.
unsafe impl Send for Emptied {}

unsafe impl Sync for Emptied {}

// A `&` to it shows only that a lifetime lasts.
unsafe impl Send for Region {}

unsafe impl Sync for Region {}

// An address alone.
unsafe impl Send for RegionStart {}

unsafe impl Sync for RegionStart {}

impl Region {
    /// The elements of a `Vec`, to be written.
    pub fn from_vec(vec: Vec<u8>) -> (RegionStart, Region, WriteAccess)
        requires { 0 < vec_len vec }
        ensures start { result.0.address ≡ start_address result.1.identity }
        ensures access { result.2
            ≡ record { identity = result.1.identity; at = 0; items = vec.items } }
    {
        let mut vec = vec;
        let address = vec.as_mut_ptr();
        let (region, access) = Region::lend_all(vec);
        (RegionStart { address }, region, access)
    }

    /// Lends each byte for a lifetime that ends with the region.
    fn lend_all(vec: Vec<u8>) -> (Region, WriteAccess)
        requires { 0 < vec_len vec }
        ensures { (vec_ptr vec ≡ start_address result.0.identity)
            × (result.1 ≡ record { identity = result.0.identity; at = 0; items = vec.items }) }
    {
        (
            Region {
                memory: Emptied { vec },
            },
            WriteAccess {},
        )
    }

    /// Which region it is.
    pub fn key(&self) -> RegionKey
        ensures { result.identity ≡ self.now.identity }
    {
        RegionKey {}
    }

    /// The memory as a `Vec`, with whatever was written there. No right to its bytes is worth anything from here on.
    pub fn into_vec(self) -> Vec<u8>
        ensures { vec_len result ≡ length self.identity.names }
    {
        let Region { memory } = self;
        let Emptied { vec } = memory;
        vec
    }
}

impl Drop for Region {
    fn drop(self) {
        drop(self.into_vec());
    }
}
