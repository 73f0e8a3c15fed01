//! Slots that a seat carries change their order.

ghost use Rattle.std.specs.Prelude.{◌≡◌};
ghost use Rattle.log_memory.specs.Order.{rotated};

use crate::rights::LogSeat;
use crate::view::LogView;
use atomic_table::Seat;
use log_rule::Chosen;
use region::Access;
use std::marker::Brand;

/// So many slots as the chosen number go behind the others that a seat carries. How many these are
/// the proof alone knows: it takes no instruction.
#[inline(always)]
pub fn pass_chosen<S, V, N: Chosen>(seat: &mut Seat<S, V>)
    ensures { (seat.new.table_id ≡ seat.old.table_id) × (seat.new.id ≡ seat.old.id)
        × (seat.new.me ≡ (seat.old.me.0, rotated N.number seat.old.me.1)) }
{}

fn pass_as<N: Chosen>(seat: &mut LogSeat, count: usize)
    requires { N.number ≡ count }
    ensures same { (seat.new.table_id ≡ seat.old.table_id) × (seat.new.id ≡ seat.old.id) }
    ensures turned { seat.new.me ≡ (seat.old.me.0, rotated count seat.old.me.1) }
{
    let _ = count;
    pass_chosen::<Access, LogView, N>(seat);
}

/// So many slots go behind the others.
#[inline(always)]
pub(crate) fn pass_slots(seat: &mut LogSeat, count: usize)
    ensures same { (seat.new.table_id ≡ seat.old.table_id) × (seat.new.id ≡ seat.old.id) }
    ensures turned { seat.new.me ≡ (seat.old.me.0, rotated count seat.old.me.1) }
{
    pass_as::<Brand>(seat, count);
}
