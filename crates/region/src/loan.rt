//! A run of bytes out as a `Vec`, to be written.
ghost use Rattle.std.specs.Prelude.{◌≡◌, ◌^◌, ◌<◌, length};
ghost use base.Fml.{ftrue};
ghost use Rattle.region.specs.Identity.{Stretch, byte_address, start_address, stretch_code};
ghost use Rattle.region.specs.Lent.{IsOut};
ghost use Rattle.region.specs.Owned.{loan_owns};

use crate::access::WriteAccess;
use crate::region::{Region, RegionStart};
use std::marker::{Move, Owns};
use std::sync::Arc;
use std_alloc::vec::{Lodged, lodge};

/// Bytes of a region, as a `Vec` that neither grows nor frees them.
pub type LentBytes = Vec<u8, Lodged>;

/// An owner of a region of which some bytes are out as a `Vec`. The region stays until they are back.
pub struct Loan {
    region: Arc<Region>,
}

impl Owns for Loan {
    ghost Value = { Stretch };

    ghost coded = { stretch_code };

    ghost shr_at = { λ _ _ _. ftrue };
}

impl Move for Loan {
    ghost own_val = { λ s vs. loan_owns s Inside (λ i. i.region.value.identity)
        (λ i. Fields.own_val i vs) };
}

// A `&` to it shows nothing.
unsafe impl Send for Loan {}

unsafe impl Sync for Loan {}

impl Loan {
    /// The bytes at `first` as a `Vec`.
    #[inline(always)]
    pub(crate) fn open(
        region: Arc<Region>,
        access: WriteAccess,
        first: *mut u8,
        len: usize,
    ) -> (LentBytes, Loan)
        requires { (access.identity ≡ region.value.identity)
            × (first ≡ byte_address access.identity access.at) × (len ≡ length access.items)
            × (0 < len) × (len < 2 ^ 63) }
        ensures bytes { IsOut result.0 result.1 × (result.0.items ≡ access.items) }
        ensures loan { result.1
            ≡ record { identity = access.identity; at = access.at; len = len } }
    {
        let WriteAccess {} = access;
        let bytes = unsafe { lodge(first, len, len) };
        (bytes, Loan { region })
    }

    /// The bytes are put back, with what was written there.
    #[inline(always)]
    pub fn end(self, bytes: LentBytes) -> (Arc<Region>, WriteAccess)
        requires { IsOut bytes self }
        ensures region { result.0.value.identity ≡ self.identity }
        ensures access { result.1
            ≡ record { identity = self.identity; at = self.at; items = bytes.items } }
    {
        let _len = bytes.dislodge();
        let Loan { region } = self;
        (region, WriteAccess {})
    }
}

impl WriteAccess {
    /// The bytes as a `Vec`, which lies `at` bytes behind the region's start, until the loan is ended.
    #[inline(always)]
    pub fn lend(
        self,
        region: Arc<Region>,
        start: RegionStart,
        at: usize,
        len: usize,
    ) -> (LentBytes, Loan)
        requires region { self.identity ≡ region.value.identity }
        requires place { (start.address ≡ start_address self.identity) × (at ≡ self.at)
            × (len ≡ length self.items) }
        requires some { (0 < len) × (len < 2 ^ 63) }
        ensures bytes { IsOut result.0 result.1 × (result.0.items ≡ self.items) }
        ensures loan { result.1 ≡ record { identity = self.identity; at = self.at; len = len } }
    {
        let first = unsafe { start.address.byte_add(at) };
        Loan::open(region, self, first, len)
    }
}
