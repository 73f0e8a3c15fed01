ghost use Rattle.std.specs.Prelude.{◌≡◌, ◌/◌, ◌%◌, ◌^◌, ◌≤◌, ◌<◌};
ghost use Rattle.std.specs.Int.{IsPowerOfTwo};
ghost use Rattle.theory.specs.Position.{aligned};

/// The bytes of one unit of a stream: frames start at multiples of it.
const UNIT: u32 = 32;

/// The least multiple of 32 that is at least `length`.
pub fn align32(length: u32) -> u32
    requires { length ≤ 2 ^ 31 }
    ensures { result ≡ aligned length }
{
    length.div_ceil(UNIT) * UNIT
}

/// The partition, 0 to 2, that holds the term with this count.
pub fn partition_of(count: u32) -> u32
    ensures value { result ≡ count % 3 }
    ensures in_range { result < 3 }
{
    count % 3
}

/// How often a power of two goes into a number, and what is left. It takes no division.
pub fn split_by(number: u64, power: u32) -> (u64, u32)
    requires { IsPowerOfTwo power }
    ensures times { result.0 ≡ number / power }
    ensures rest { result.1 ≡ number % power }
    ensures less { result.1 < power }
{
    let times = number >> power.trailing_zeros();
    let rest = number & u64::from(power - 1);
    (times, rest as u32)
}
