//! A frame is stored in the room of an open claim, and parted among those who read it.

ghost use Rattle.std.specs.Prelude.{◌≡◌, ◌+◌, ◌*◌, ◌/◌, ◌^◌, ◌<◌, ◌≤◌, ◌∷◌, ◌++◌, [], drop, length};
ghost use Rattle.position.specs.Contents.{bytes_in};
ghost use Rattle.region.specs.Identity.{start_address};
ghost use Rattle.publication.specs.Steps.{frame};
ghost use Rattle.log_memory.specs.Drafts.{IsDraft, IsParted, MayStore, StoresFrame, behind_of, words_of};
ghost use Rattle.log_memory.specs.Kinds.{IsSeatOf};
ghost use Rattle.log_memory.specs.Rule.{ring};
ghost use Rattle.log_memory.specs.Steps.{CarriesRange, IsRoomAt};

use crate::memory::LogMemory;
use crate::rights::{LogSeat, Rowed, deal_parts, gather};
use crate::steps::{Commit, Picked};
use region::{Region, RegionStart, WriteAccess};
use std::sync::Arc;

/// A frame that is stored: where it begins, how many bytes it covers, the three words of its header
/// that aren't zero, and its payload.
#[derive(Clone, Copy)]
pub struct Draft<'a> {
    pub start: u64,
    pub bytes: u32,
    pub first: u64,
    pub second: u64,
    pub third: u64,
    pub payload: &'a [u8],
}

/// A header's bytes.
#[inline(always)]
fn header_bytes(first: u64, second: u64, third: u64) -> [u8; 32]
    ensures { result ≡ bytes_in (first ∷ second ∷ third ∷ 0 ∷ []) }
{
    let [a, b, c, d, e, f, g, h] = first.to_le_bytes();
    let [i, j, k, l, m, n, o, p] = second.to_le_bytes();
    let [q, r, s, t, u, v, w, x] = third.to_le_bytes();
    [
        a, b, c, d, e, f, g, h, i, j, k, l, m, n, o, p, q, r, s, t, u, v, w, x, 0, 0, 0, 0, 0, 0,
        0, 0,
    ]
}

/// Writes a header and a payload over the front of a run, which lies `at` bytes behind the region's
/// start.
#[inline(always)]
fn write_parts(
    run: WriteAccess,
    home: Arc<Region>,
    start: RegionStart,
    at: usize,
    header: &[u8],
    payload: &[u8],
) -> (Arc<Region>, WriteAccess)
    requires region { run.identity ≡ home.value.identity }
    requires place { (start.address ≡ start_address run.identity) × (at ≡ run.at) × (at < 2 ^ 60) }
    requires header { length header.now ≡ 32 }
    requires fits { 32 + length payload.now ≤ length run.items }
    ensures region { result.0.value.identity ≡ home.value.identity }
    ensures written { result.1 ≡ record run {
      items = header.now ++ (payload.now ++ drop (length
          payload.now) (drop 32 run.items));
    } }
{
    let (head, body) = run.split_at(32);
    let (home, head) = head.write(home, start, at, header);
    let (home, body) = body.write(home, start, at + 32, payload);
    (home, head.append(body))
}

/// Stores a frame in the room that the seat carries in front, over the chosen slots, and puts the
/// parts of the right to read it in its slots.
#[inline(always)]
pub(crate) fn store_frame<N: Rowed>(
    memory: &LogMemory,
    seat: &mut LogSeat,
    home: Arc<Region>,
    draft: &Draft<'_>,
) -> Arc<Region>
    requires seat { seat.old.table_id ≡ memory.now.table.shared.table_id }
    requires home { home.value.identity ≡ memory.now.table.shared.key.region.identity }
    requires draft { IsDraft draft.now }
    requires row { CarriesRange memory.now.table.shared.key (IsRoomAt memory.now.table.shared.key)
        draft.now.start draft.now.bytes N.behind seat.old.me.1 }
    ensures home { result.value.identity ≡ home.value.identity }
    ensures seat { (seat.new.table_id ≡ seat.old.table_id) × (seat.new.id ≡ seat.old.id)
        × (seat.new.me.0 ≡ seat.old.me.0) }
    ensures row { IsParted memory.now.table.shared.key draft.now N.behind seat.new.me.1 }
{
    let table = &memory.table.shared;
    let first = memory.slot(draft.start);
    let units = draft.bytes as usize / 32;
    let header = header_bytes(draft.first, draft.second, draft.third);
    let run = gather::<N>(table, seat, first, units);
    let at = memory.byte(draft.start);
    let (home, run) = write_parts(run, home, memory.start, at, &header, draft.payload);
    let whole = run.begin_reading(&home);
    deal_parts::<N>(table, seat, whole, first, units);
    home
}

/// Stores the word of a frame, which is committed then, and gives the parts of its memory, which
/// are in front of what the seat carries.
#[inline(always)]
pub(crate) fn commit_word<N: Picked>(memory: &LogMemory, seat: &mut LogSeat, draft: &Draft<'_>)
    requires seat { IsSeatOf memory.now.table.shared.key memory.now.table.shared.table_id
        seat.old.table_id }
    requires draft { IsDraft draft.now }
    requires may { MayStore memory.now.table.shared.key draft.now seat.old.me }
    requires row { IsParted memory.now.table.shared.key draft.now (behind_of draft.now
        seat.old.me.1)
        seat.old.me.1 }
    requires chosen { (N.site ≡ memory.now.table.shared.key)
        × (N.frame ≡ frame draft.now.start 0 (words_of draft.now)) }
    ensures seat { (seat.new.table_id ≡ seat.old.table_id) × (seat.new.id ≡ seat.old.id) }
    ensures stores { StoresFrame draft.now (behind_of draft.now seat.old.me.1) seat.old.me
        seat.new.me }
{
    let place = memory.head(draft.start);
    let table = &memory.table.shared;
    table.store::<Commit<N>>(seat, place, draft.first);
}
