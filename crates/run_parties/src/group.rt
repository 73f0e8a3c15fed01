//! The ids of receivers.

ghost use Rattle.std.specs.Prelude.{◌≡◌, ◌<◌};
ghost use Rattle.run_parties.specs.Groups.{id_of};

/// The id of a receiver that is the only one.
const ALONE: i64 = 1;

/// The id of the receiver with this number, of so many: in a group its number.
pub fn receiver_id(receivers: usize, number: u64) -> i64
    requires { number < 8 }
    ensures { result ≡ id_of receivers number }
{
    if receivers > 1 { number as i64 } else { ALONE }
}
