// What batch and cut have in common.
ghost use Rattle.server.specs.Batch.{Took};
ghost use Rattle.table.specs.Known.{TableReady};

use crate::gather::gather;
use crate::settle::settle_all;
use cells::Cell;
use words::across::change_from;
use words::extent::Extent;
use words::layout::{ITEM, ITEM_PLACES, SHEET};

// Takes the rounds that the counts ask for; tells how many. Nothing is changed where there is none, not even by a crash.
pub fn take_rounds(t: &mut [u64], counts: &[u64], reach: u64, crash: bool, extent: Extent) -> u64
    requires { TableReady t.old extent.devices extent.cells }
    ensures { Took counts.now reach crash t.old result t.new }
{
    let mut segment = [0u64; ITEM];
    let moved = gather(&mut segment, t, counts, extent);
    if moved == 0 {
        return 0;
    }
    change_from::<Cell>(t, SHEET, &segment, ITEM_PLACES, extent.cells);
    settle_all(t, &segment, counts, reach, crash, extent);
    moved
}
