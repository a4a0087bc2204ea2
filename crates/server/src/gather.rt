// What a batch takes from all devices, joined into one segment. Nothing is changed yet.
ghost use Rattle.std.specs.Prelude.{◌≡◌, length};
ghost use Rattle.words.specs.Layout.{ITEM};
ghost use Rattle.table.specs.Known.{TableReady};
ghost use Rattle.server.specs.Gather.{SegmentReady, Gathered};

use cells::Change;
use link::gather::gather_one;
use words::extent::Extent;
use words::layout::{ITEM_KIND, ITEM_PLACES, RECORD, RECORDS, SEGMENT};
use words::list::word_at;
use words::run::{clear_numbers, fill};

// Joins what each device gives to a segment, in rising number: "a device without a count in the list has 0".
fn gather_all(segment: &mut [u64], t: &[u64], counts: &[u64], extent: Extent) -> u64
    requires { TableReady t.now extent.devices extent.cells × SegmentReady extent.cells segment.old }
    ensures { Gathered t.now counts.now extent.devices extent.cells result segment.new }
{
    let mut moved = 0;
    for d in 0..extent.devices {
        let a = RECORDS + RECORD * d;
        let e = a + RECORD;
        let count = word_at(counts, d);
        moved += gather_one(segment, &t[a..e], d, count, extent.cells);
    }
    moved
}

// The segment of a batch, made from nothing; tells how many rounds it holds.
pub fn gather(segment: &mut [u64], t: &[u64], counts: &[u64], extent: Extent) -> u64
    requires { TableReady t.now extent.devices extent.cells × (length segment.old ≡ ITEM) }
    ensures { Gathered t.now counts.now extent.devices extent.cells result segment.new }
{
    clear_numbers(segment, ITEM_KIND, ITEM_PLACES);
    fill(segment, ITEM_PLACES, extent.cells, Change::Nothing);
    segment[ITEM_KIND] = SEGMENT;
    gather_all(segment, t, counts, extent)
}
