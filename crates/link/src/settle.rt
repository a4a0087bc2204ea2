// What a batch or a cut does to a device's record once its segment is made.
ghost use Rattle.std.specs.Prelude.{◌≡◌, ◌&&◌, length, get_or};
ghost use Rattle.protocol.specs.Machine.{choose, is_live, join_item, enqueue};
ghost use Rattle.sheet.specs.Sheet.{sheet};
ghost use Rattle.words.specs.Layout.{CONNECTION, ITEM_KIND, ITEMS, ITEMS_LENGTH, RECORD};
ghost use Rattle.record.specs.Reading.{connection_of, item_at};
ghost use Rattle.queues.specs.Items.{items_of};
ghost use Rattle.queues.specs.Parts.{item_entry, Requeued};
ghost use Rattle.delivery.specs.Deliver.{Deliverable};
ghost use Rattle.link.specs.Settle.{NumberTaken, HungUp, Settling, Settled};

use crate::waiting::{drop_waiting, going};
use delivery::deliver::deliver;
use words::extent::Extent;
use words::layout::{CONNECTION, ITEM_NUMBERS, LIVE, REQUEST, TAKEN, WAITING_LENGTH};

// The number of the last round taken is in the segment, as number + 1; 0 where none was.
fn take_number(r: &mut [u64], word: u64)
    requires { length r.old ≡ RECORD }
    ensures { NumberTaken word r.old r.new }
{
    if word == 0 {
        return;
    }
    r[TAKEN] = word - 1;
}

// "puts one segment on every connection that is not stale", as far as it reaches.
fn send_segment(r: &mut [u64], segment: &[u64], reaches: bool, extent: Extent)
    requires { Deliverable extent.devices extent.cells r.old segment.now }
    ensures { Requeued (item_entry extent.devices extent.cells) r.old r.new ITEMS_LENGTH ITEMS (choose (is_live (connection_of (get_or r.old CONNECTION 0)) && reaches) (enqueue (join_item sheet) (items_of extent.devices extent.cells r.old) (item_at extent.devices extent.cells segment.now ITEM_KIND)) (items_of extent.devices extent.cells r.old)) }
{
    if r[CONNECTION] != LIVE {
        return;
    }
    if !reaches {
        return;
    }
    deliver(r, segment, extent);
}

// With a crash the connection and the request end.
fn hang_up(r: &mut [u64], crash: bool)
    requires { length r.old ≡ RECORD }
    ensures { HungUp crash r.old r.new }
{
    if !crash {
        return;
    }
    r[REQUEST] = 0;
    r[CONNECTION] = 0;
}

// All of it on one record.
pub fn settle(
    r: &mut [u64],
    segment: &[u64],
    d: usize,
    count: u64,
    reaches: bool,
    crash: bool,
    extent: Extent,
)
    requires { Settling extent.devices extent.cells d r.old segment.now }
    ensures { Settled extent.devices extent.cells d count reaches crash segment.now r.old r.new }
{
    let k = going(count, r[CONNECTION], r[WAITING_LENGTH], crash);
    take_number(r, segment[ITEM_NUMBERS + d]);
    drop_waiting(r, k as usize, extent.cells);
    send_segment(r, segment, reaches, extent);
    hang_up(r, crash);
}
