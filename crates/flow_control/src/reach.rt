ghost use Rattle.std.specs.Prelude.{◌≡◌, ◌<◌, ◌^◌, ◌+ℤ◌};
ghost use Rattle.theory.specs.FlowLimit.{clipped};

/// How far a status message lets a sender go.
pub fn reach_of(position: i64, window: i32) -> u64
    ensures reach { result ≡ clipped (position +ℤ window) }
    ensures small { result < 2 ^ 63 }
{
    position.saturating_add(i64::from(window)).max(0) as u64
}
