// receive: one item taken. The first on a channel is a prefix, which establishes it; later ones are segments, joined to the buffered item.
ghost use Rattle.std.specs.Prelude.{Ok, ◌≡◌, ◌<◌, get_or};
ghost use Rattle.protocol.specs.Machine.{receive_at};
ghost use Rattle.words.specs.Layout.{ITEMS, ITEMS_LENGTH, PREFIX, RECEIVED, SEGMENT};
ghost use Rattle.record.specs.Reading.{item_at, received_at};
ghost use Rattle.record.specs.Valid.{IsRecord};
ghost use Rattle.sheet.specs.Sheet.{sheet};
ghost use Rattle.sheet.specs.Answer.{meaning};
ghost use Rattle.record.specs.Did.{Did};
ghost use Rattle.queues.specs.Items.{joined_to, Receivable};
ghost use Rattle.queues.specs.Parts.{item_entry, PutEntry};

use protocol::Refusal;
use queues::above::put_above;
use queues::item::{copy_item, join_item, pop_item};
use sheet::Answer;
use words::extent::Extent;
use words::layout::{CHANNEL, ESTABLISHED, ITEM_NUMBERS, ITEMS, ITEMS_LENGTH, PREFIX, RECEIVED};

// The first item is a prefix: it replaces the receive buffer, the channel becomes established, and pending rounds above its number wait.
fn receive_prefix(r: &mut [u64], extent: Extent, d: usize) -> Answer
    requires { Receivable extent.devices extent.cells r.old d × (get_or r.old ITEMS 0 ≡ PREFIX) }
    ensures { Did extent.devices extent.cells (receive_at sheet d) r.old (meaning (Ok result)) r.new }
{
    let number = r[ITEMS + ITEM_NUMBERS + d] - 1;
    copy_item(r, ITEMS, RECEIVED, extent);
    put_above(r, number, extent.cells);
    r[CHANNEL] = ESTABLISHED;
    pop_item(r, extent);
    Answer::Done
}

// Joins the first item, a segment, to the buffered one; an empty buffer takes it as it is.
fn buffer_first(r: &mut [u64], extent: Extent)
    requires { IsRecord extent.devices extent.cells r.old × (0 < get_or r.old ITEMS_LENGTH 0) × (get_or r.old ITEMS 0 ≡ SEGMENT) }
    ensures { PutEntry (item_entry extent.devices extent.cells) r.old r.new RECEIVED (joined_to (received_at extent.devices extent.cells r.old RECEIVED) (item_at extent.devices extent.cells r.old ITEMS)) }
{
    if r[RECEIVED] == 0 {
        copy_item(r, ITEMS, RECEIVED, extent);
        return;
    }
    join_item(r, RECEIVED, ITEMS, extent);
}

// The first item is a segment: it is joined to the receive buffer.
fn receive_segment(r: &mut [u64], extent: Extent, d: usize) -> Answer
    requires { Receivable extent.devices extent.cells r.old d × (get_or r.old ITEMS 0 ≡ SEGMENT) }
    ensures { Did extent.devices extent.cells (receive_at sheet d) r.old (meaning (Ok result)) r.new }
{
    buffer_first(r, extent);
    pop_item(r, extent);
    Answer::Done
}

pub fn receive(r: &mut [u64], extent: Extent, d: usize) -> Result<Answer, Refusal>
    requires { IsRecord extent.devices extent.cells r.old × (d < extent.devices) }
    ensures { Did extent.devices extent.cells (receive_at sheet d) r.old (meaning result) r.new }
{
    if r[CHANNEL] == 0 {
        return Err(Refusal::NoChannel);
    }
    if r[ITEMS_LENGTH] == 0 {
        return Err(Refusal::NoItem);
    }
    if r[ITEMS] == PREFIX {
        return Ok(receive_prefix(r, extent, d));
    }
    Ok(receive_segment(r, extent, d))
}
