// A record at first: nothing done, with no channel, at a number.
ghost use Rattle.std.specs.Prelude.{◌≡◌, ◌≤◌, length};
ghost use Rattle.cells.specs.declared.Cell.TheVariants.{Blank};
ghost use Rattle.words.specs.Layout.{KNOWN, MOST_CELLS, RECORD};
ghost use Rattle.words.specs.Place.{cell_place, Valid};
ghost use Rattle.record.specs.Reading.{sheet_at};
ghost use Rattle.record.specs.Begun.{Begun};

use cells::{Cell, Change};
use words::layout::{BUFFERED, KNOWN, LAST, RECEIVED, TAKEN, TRANSACTION};
use words::run::{clear_numbers, fill};

// A record that knows the sheet which stands there.
pub fn begin_knowing(r: &mut [u64], cells: usize, number: u64)
    requires { (length r.old ≡ RECORD) × (cells ≤ MOST_CELLS) × Valid cell_place r.old KNOWN cells }
    ensures { Begun cells (sheet_at cells r.old KNOWN) number r.old r.new }
{
    fill(r, TRANSACTION, cells, Change::Nothing);
    fill(r, BUFFERED, cells, Change::Nothing);
    // the single numbers are the words below KNOWN
    clear_numbers(r, LAST, KNOWN);
    r[RECEIVED] = 0;
    r[LAST] = number;
    r[TAKEN] = number;
}

// A record that knows the blank sheet.
pub fn begin(r: &mut [u64], cells: usize, number: u64)
    requires { (length r.old ≡ RECORD) × (cells ≤ MOST_CELLS) }
    ensures { Begun cells (λ c. Blank) number r.old r.new }
{
    fill(r, KNOWN, cells, Cell::Blank);
    begin_knowing(r, cells, number);
}
