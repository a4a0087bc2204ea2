// Items: a prefix or a segment, in the receive buffer and in the queue of items.
ghost use Rattle.std.specs.Prelude.{◌+◌, ◌*◌, ◌≤◌};
ghost use Rattle.words.specs.Layout.{ITEM, ITEMS, ITEMS_LENGTH, MOST_CELLS, MOST_DEVICES};
ghost use Rattle.protocol.specs.Machine.{join_item};
ghost use Rattle.record.specs.Reading.{item_at};
ghost use Rattle.sheet.specs.Sheet.{sheet};
ghost use Rattle.queues.specs.Items.{items_behind, Joinable, HasItems};
ghost use Rattle.queues.specs.Parts.{item_entry, PutEntry, EntryBeside, Movable, Moved, Requeued};

use cells::{Cell, Change};
use words::extent::Extent;
use words::layout::{ITEM, ITEM_NUMBERS, ITEM_PLACES, ITEMS, ITEMS_LENGTH, PREFIX};
use words::run::{change, copy, copy_numbers, take_numbers};

// Stores the item from `from` on as the one from `to` on.
pub fn copy_item(r: &mut [u64], from: usize, to: usize, extent: Extent)
    requires { EntryBeside (item_entry extent.devices extent.cells) r.old to from }
    ensures { PutEntry (item_entry extent.devices extent.cells) r.old r.new to (item_at extent.devices extent.cells r.old from) }
{
    let kind = r[from];
    r[to] = kind;
    copy_numbers(r, from + ITEM_NUMBERS, to + ITEM_NUMBERS, extent.devices);
    if kind == PREFIX {
        copy::<Cell>(r, from + ITEM_PLACES, to + ITEM_PLACES, extent.cells);
        return;
    }
    copy::<Change>(r, from + ITEM_PLACES, to + ITEM_PLACES, extent.cells);
}

// Joins the segment from `from` on to the item from `to` on.
pub fn join_item(r: &mut [u64], to: usize, from: usize, extent: Extent)
    requires { Joinable extent.devices extent.cells r.old to from }
    ensures { PutEntry (item_entry extent.devices extent.cells) r.old r.new to (join_item sheet (item_at extent.devices extent.cells r.old to) (item_at extent.devices extent.cells r.old from)) }
{
    let kind = r[to];
    take_numbers(r, to + ITEM_NUMBERS, from + ITEM_NUMBERS, extent.devices);
    if kind == PREFIX {
        change::<Cell>(r, to + ITEM_PLACES, from + ITEM_PLACES, extent.cells);
        return;
    }
    change::<Change>(r, to + ITEM_PLACES, from + ITEM_PLACES, extent.cells);
}

// Moves the n items from `from` on to `to` on, the first one first.
fn move_items(r: &mut [u64], from: usize, to: usize, n: usize, extent: Extent)
    requires { Movable (item_entry extent.devices extent.cells) r.old to from n }
    ensures { Moved (item_entry extent.devices extent.cells) r.old r.new to n (λ j. item_at extent.devices extent.cells r.old (from + ITEM * j)) }
{
    for j in 0..n {
        copy_item(r, from + ITEM * j, to + ITEM * j, extent);
    }
}

// Takes the first item out of the queue.
pub fn pop_item(r: &mut [u64], extent: Extent)
    requires { HasItems extent.devices extent.cells r.old }
    ensures { Requeued (item_entry extent.devices extent.cells) r.old r.new ITEMS_LENGTH ITEMS (items_behind extent.devices extent.cells r.old) }
{
    let left = r[ITEMS_LENGTH] as usize - 1;
    move_items(r, ITEMS + ITEM, ITEMS, left, extent);
    r[ITEMS_LENGTH] = left as u64;
}
