//! Bytes copied in, and made zero.
ghost use Rattle.std.specs.Prelude.{◌≡◌, ◌^◌, ◌≤◌, ◌<◌, ◌++◌, length, drop, replicate};
ghost use Rattle.region.specs.Identity.{start_address};

use crate::access::WriteAccess;
use crate::region::{Region, RegionStart};
use std::sync::Arc;

impl WriteAccess {
    /// Writes bytes over the front of the run, which lies `at` bytes behind the region's start.
    #[inline(always)]
    pub fn write(
        self,
        region: Arc<Region>,
        start: RegionStart,
        at: usize,
        bytes: &[u8],
    ) -> (Arc<Region>, WriteAccess)
        requires region { self.identity ≡ region.value.identity }
        requires place { (start.address ≡ start_address self.identity) × (at ≡ self.at) }
        requires fits { length bytes.now ≤ length self.items }
        ensures region { result.0.value.identity ≡ region.value.identity }
        ensures written { result.1
            ≡ record self { items = bytes.now ++ drop (length bytes.now) self.items } }
    {
        let len = bytes.len();
        if bytes.is_empty() {
            return (region, self);
        }
        let (front, back) = self.split_at(len);
        let (mut room, loan) = front.lend(region, start, at, len);
        copy(&mut room, bytes);
        let (region, front) = loan.end(room);
        (region, front.append(back))
    }

    /// Makes all bytes of the run zero, which lies `at` bytes behind the region's start.
    #[inline(always)]
    pub fn clear(
        self,
        region: Arc<Region>,
        start: RegionStart,
        at: usize,
        len: usize,
    ) -> (Arc<Region>, WriteAccess)
        requires region { self.identity ≡ region.value.identity }
        requires place { (start.address ≡ start_address self.identity) × (at ≡ self.at)
            × (len ≡ length self.items) }
        requires short { len < 2 ^ 63 }
        ensures region { result.0.value.identity ≡ region.value.identity }
        ensures cleared { result.1 ≡ record self { items = replicate (length self.items) 0 } }
    {
        if len == 0 {
            return (region, self);
        }
        let (mut bytes, loan) = self.lend(region, start, at, len);
        make_zero(&mut bytes);
        loan.end(bytes)
    }
}

/// Copies as many bytes as there are places.
#[inline(always)]
fn copy(into: &mut [u8], bytes: &[u8])
    requires { length into.old ≡ length bytes.now }
    ensures { into.new ≡ bytes.now }
{
    into.copy_from_slice(bytes);
}

/// Makes all bytes zero.
#[inline(always)]
fn make_zero(bytes: &mut [u8])
    ensures { bytes.new ≡ replicate (length bytes.old) 0 }
{
    bytes.fill(0);
}
