// The present prefix: "sheet and all numbers".
ghost use Rattle.std.specs.Prelude.{◌≡◌, ◌+◌, length, get_or};
ghost use Rattle.words.specs.Layout.{ITEM, ITEM_NUMBERS, TAKEN};
ghost use Rattle.words.specs.Place.{Numbers};
ghost use Rattle.table.specs.Table.{record_at};
ghost use Rattle.table.specs.Known.{TableReady};
ghost use Rattle.server.specs.Prefix.{PrefixIs};

use cells::Cell;
use words::across::copy_from;
use words::extent::Extent;
use words::layout::{ITEM_KIND, ITEM_NUMBERS, ITEM_PLACES, PREFIX, RECORD, RECORDS, SHEET, TAKEN};

// The numbers of an item: for each device one more than the server has taken.
fn put_numbers(item: &mut [u64], t: &[u64], extent: Extent)
    requires { TableReady t.now extent.devices extent.cells × (length item.old ≡ ITEM) }
    ensures { Numbers item.old item.new ITEM_NUMBERS extent.devices (λ d. get_or (record_at t.now d) TAKEN 0 + 1) }
{
    for d in 0..extent.devices {
        let at = RECORDS + RECORD * d + TAKEN;
        item[ITEM_NUMBERS + d] = t[at] + 1;
    }
}

// Makes the words of an item the present prefix.
pub fn make_prefix(item: &mut [u64], t: &[u64], extent: Extent)
    requires { TableReady t.now extent.devices extent.cells × (length item.old ≡ ITEM) }
    ensures { PrefixIs t.now extent.devices extent.cells item.new }
{
    put_numbers(item, t, extent);
    copy_from::<Cell>(item, ITEM_PLACES, t, SHEET, extent.cells);
    item[ITEM_KIND] = PREFIX;
}
