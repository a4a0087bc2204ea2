// Items that the server puts on a connection: behind those that wait there, or joined to the last.
ghost use Rattle.std.specs.Prelude.{[], ◌∷◌, ◌++◌};
ghost use Rattle.protocol.specs.Machine.{join_item, enqueue};
ghost use Rattle.sheet.specs.Sheet.{sheet};
ghost use Rattle.words.specs.Layout.{ITEM_KIND, ITEMS, ITEMS_LENGTH};
ghost use Rattle.record.specs.Reading.{item_at};
ghost use Rattle.queues.specs.Items.{items_of};
ghost use Rattle.queues.specs.Parts.{item_entry, PutEntry, Requeued};
ghost use Rattle.delivery.specs.Deliver.{Storable, Stackable, JoinableTo, Deliverable};

use cells::{Cell, Change};
use words::across::{change_from, copy_from, copy_numbers_from, take_numbers_from};
use words::extent::Extent;
use words::layout::{
    ITEM, ITEM_KIND, ITEM_NUMBERS, ITEM_PLACES, ITEMS, ITEMS_LENGTH, PREFIX, QUEUE,
};

// Stores an item's words as the entry from `to` on.
fn put_item(r: &mut [u64], to: usize, item: &[u64], extent: Extent)
    requires { Storable extent.devices extent.cells r.old item.now to }
    ensures { PutEntry (item_entry extent.devices extent.cells) r.old r.new to (item_at extent.devices extent.cells item.now ITEM_KIND) }
{
    let kind = item[ITEM_KIND];
    r[to] = kind;
    copy_numbers_from(r, to + ITEM_NUMBERS, item, ITEM_NUMBERS, extent.devices);
    if kind == PREFIX {
        copy_from::<Cell>(r, to + ITEM_PLACES, item, ITEM_PLACES, extent.cells);
        return;
    }
    copy_from::<Change>(r, to + ITEM_PLACES, item, ITEM_PLACES, extent.cells);
}

// Joins a segment's words to the item from `to` on.
fn join_to(r: &mut [u64], to: usize, segment: &[u64], extent: Extent)
    requires { JoinableTo extent.devices extent.cells r.old segment.now to }
    ensures { PutEntry (item_entry extent.devices extent.cells) r.old r.new to (join_item sheet (item_at extent.devices extent.cells r.old to) (item_at extent.devices extent.cells segment.now ITEM_KIND)) }
{
    let kind = r[to];
    take_numbers_from(r, to + ITEM_NUMBERS, segment, ITEM_NUMBERS, extent.devices);
    if kind == PREFIX {
        change_from::<Cell>(r, to + ITEM_PLACES, segment, ITEM_PLACES, extent.cells);
        return;
    }
    change_from::<Change>(r, to + ITEM_PLACES, segment, ITEM_PLACES, extent.cells);
}

// Puts an item behind those that wait on a record's channel.
pub fn put_behind(r: &mut [u64], item: &[u64], extent: Extent)
    requires { Stackable extent.devices extent.cells r.old item.now }
    ensures { Requeued (item_entry extent.devices extent.cells) r.old r.new ITEMS_LENGTH ITEMS (items_of extent.devices extent.cells r.old ++ (item_at extent.devices extent.cells item.now ITEM_KIND ∷ [])) }
{
    let n = r[ITEMS_LENGTH];
    put_item(r, ITEMS + ITEM * (n as usize), item, extent);
    r[ITEMS_LENGTH] = n + 1;
}

// Puts a segment on a record's connection: behind the last item, or with 8 items waiting there joined to the last.
pub fn deliver(r: &mut [u64], segment: &[u64], extent: Extent)
    requires { Deliverable extent.devices extent.cells r.old segment.now }
    ensures { Requeued (item_entry extent.devices extent.cells) r.old r.new ITEMS_LENGTH ITEMS (enqueue (join_item sheet) (items_of extent.devices extent.cells r.old) (item_at extent.devices extent.cells segment.now ITEM_KIND)) }
{
    if r[ITEMS_LENGTH] < QUEUE as u64 {
        put_behind(r, segment, extent);
        return;
    }
    join_to(r, ITEMS + ITEM * (QUEUE - 1), segment, extent);
}
