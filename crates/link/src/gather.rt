// What a batch takes from one device: the first rounds that wait on its connection, joined to a segment. The record is not changed yet.
ghost use Rattle.std.specs.Prelude.{◌<◌};
ghost use Rattle.link.specs.Gather.{RoundsReady, JoinedRounds, RecordReady, GatheredOne};

use crate::waiting::share;
use cells::Change;
use words::across::change_from;
use words::layout::{
    CONNECTION, ITEM_NUMBERS, ITEM_PLACES, ROUND, ROUND_CHANGES, WAITING, WAITING_LENGTH,
};

// Joins the first k waiting rounds of a record to a segment's changes.
fn join_rounds(segment: &mut [u64], r: &[u64], k: usize, cells: usize)
    requires { RoundsReady cells k segment.old r.now }
    ensures { JoinedRounds cells k segment.old r.now segment.new }
{
    for j in 0..k {
        change_from::<Change>(
            segment,
            ITEM_PLACES,
            r,
            WAITING + ROUND * j + ROUND_CHANGES,
            cells,
        );
    }
}

// Joins what a count takes of a device's waiting rounds to a segment, with the number of the last; tells how many they are.
pub fn gather_one(segment: &mut [u64], r: &[u64], d: usize, count: u64, cells: usize) -> u64
    requires { RecordReady cells segment.old r.now × (d < 8) }
    ensures { GatheredOne cells count d segment.old r.now result segment.new }
{
    let k = share(count, r[CONNECTION], r[WAITING_LENGTH]);
    let n = k as usize;
    join_rounds(segment, r, n, cells);
    if n > 0 {
        let number = r[WAITING + ROUND * (n - 1)];
        segment[ITEM_NUMBERS + d] = number + 1;
    }
    k
}
