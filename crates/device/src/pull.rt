// pull: the receive buffer applied to the known sheet, the pending rounds up to its number removed, and the buffer emptied.
ghost use Rattle.std.proofs.Math.Option.{some};
ghost use Rattle.std.specs.Prelude.{Ok, ◌≡◌, ◌*◌, ◌<◌, ◌≤◌, length};
ghost use Rattle.cells.specs.declared.Cell.TheVariants.{Blank};
ghost use Rattle.protocol.specs.Machine.{pull_at, sheet_after};
ghost use Rattle.words.specs.Layout.{CELL, KNOWN, MOST_CELLS, RECEIVED, RECORD};
ghost use Rattle.words.specs.Place.{cell_place, Kept, Valid};
ghost use Rattle.record.specs.Reading.{item_at, sheet_at};
ghost use Rattle.record.specs.Valid.{IsRecord, ValidItem};
ghost use Rattle.sheet.specs.Sheet.{sheet};
ghost use Rattle.sheet.specs.Answer.{meaning};
ghost use Rattle.record.specs.Did.{Did};
ghost use Rattle.queues.specs.Parts.{PlacesAre};

use cells::Cell;
use queues::above::forget;
use sheet::Answer;
use words::extent::Extent;
use words::layout::{ITEM_NUMBERS, ITEM_PLACES, KNOWN, PREFIX, RECEIVED};
use words::run::{change, copy};

// Applies the buffered item to the known sheet: a prefix replaces it.
fn take_in(r: &mut [u64], extent: Extent)
    requires { (length r.old ≡ RECORD) × Valid cell_place r.old KNOWN extent.cells × ValidItem extent.devices extent.cells r.old RECEIVED }
    ensures { PlacesAre cell_place Blank extent.cells r.new KNOWN (sheet_after sheet (some (item_at extent.devices extent.cells r.old RECEIVED)) (sheet_at extent.cells r.old KNOWN)) × Kept r.old r.new KNOWN (CELL * extent.cells) }
{
    if r[RECEIVED] == PREFIX {
        copy::<Cell>(r, RECEIVED + ITEM_PLACES, KNOWN, extent.cells);
        return;
    }
    change::<Cell>(r, KNOWN, RECEIVED + ITEM_PLACES, extent.cells);
}

pub fn pull(r: &mut [u64], extent: Extent, d: usize) -> Answer
    requires { IsRecord extent.devices extent.cells r.old × (d < extent.devices) }
    ensures { Did extent.devices extent.cells (pull_at sheet d) r.old (meaning (Ok result)) r.new }
{
    if r[RECEIVED] == 0 {
        return Answer::Done;
    }
    let word = r[RECEIVED + ITEM_NUMBERS + d];
    take_in(r, extent);
    r[RECEIVED] = 0;
    forget(r, word, extent.cells);
    Answer::Done
}
