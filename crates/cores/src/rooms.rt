//! What is written into the caller's rooms.

ghost use Rattle.std.specs.Prelude.{◌≡◌, ◌++◌, ◌≤◌, drop, length};
ghost use Rattle.cores.specs.Rooms.{with_outcomes};

use crate::numbers::outcome_number;
use receiver::Outcome;

/// Writes bytes to a room's front.
pub(crate) fn put_front(room: &mut [u8], bytes: &[u8])
    requires { length bytes.now ≤ length room.old }
    ensures { room.new ≡ bytes.now ++ drop (length bytes.now) room.old }
{
    room[..bytes.len()].copy_from_slice(bytes);
}

/// Writes the numbers of outcomes, as many as have room, from the first on.
pub(crate) fn put_outcomes(room: &mut [i32], outcomes: &[Outcome])
    ensures { room.new ≡ with_outcomes outcomes.now room.old }
{
    for index in 0..outcomes.len().min(room.len()) {
        room[index] = outcome_number(outcomes[index]);
    }
}
