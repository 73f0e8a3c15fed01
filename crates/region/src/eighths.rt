//! Eight readers of one run.
ghost use Rattle.std.specs.Prelude.{◌≡◌, ◌^◌, ◌<◌, length};

use crate::access::WriteAccess;
use crate::region::Region;

/// How many of the 2^63 parts of a round each of eight readers has.
pub const EIGHTH: usize = 1 << 60;

/// A law: eight readers' parts go out one by one, and when they are back the run may be written, as it was.
pub fn eight_readers(access: WriteAccess, region: &Region) -> WriteAccess
    requires { (access.identity ≡ region.now.identity) × (length access.items < 2 ^ 63) }
    ensures { result ≡ access }
{
    let (mut back, mut rest) = access.begin_reading(region).split(EIGHTH);
    let mut readers: usize = 1;
    while readers < 8 {
        let (one, others) = rest.split(EIGHTH);
        rest = others;
        back = back.join(one);
        readers += 1;
    }
    back.end_reading()
}
