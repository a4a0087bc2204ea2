// start: the table of a number of devices and of cells, at first.
ghost use Rattle.std.specs.Prelude.{◌+◌, ◌*◌, ◌≤◌, length};
ghost use Rattle.cells.specs.declared.Cell.TheVariants.{Blank};
ghost use Rattle.words.specs.Layout.{MOST_CELLS, MOST_DEVICES, RECORD, RECORDS};
ghost use Rattle.table.specs.Promise.{Started, Begins};
ghost use Rattle.sheet.specs.Answer.{meaning};

use crate::check::are_sizes;
use cells::Cell;
use protocol::Refusal;
use record::begin::begin;
use sheet::Answer;
use words::extent::Extent;
use words::layout::{CELLS, DEVICES, RECORD, RECORDS, SHEET};
use words::run::fill;

// Begins the devices' records.
fn begin_records(t: &mut [u64], extent: Extent)
    requires { RECORDS + RECORD * extent.devices ≤ length t.old }
    ensures { Begins extent.cells (λ c. Blank) (λ d. 0) t.old t.new extent.devices }
{
    for d in 0..extent.devices {
        let a = RECORDS + RECORD * d;
        begin(&mut t[a..a + RECORD], extent.cells, 0);
    }
}

pub fn start(t: &mut [u64], devices: u64, cells: u64) -> Result<Answer, Refusal>
    ensures { Started devices cells t.old (meaning result) t.new }
{
    if !are_sizes(devices, cells) {
        return Err(Refusal::OutsideAllowed);
    }
    let extent = Extent {
        devices: devices as usize,
        cells: cells as usize,
    };
    if t.len() < RECORDS + RECORD * extent.devices {
        return Err(Refusal::NoTable);
    }
    begin_records(t, extent);
    fill(t, SHEET, extent.cells, Cell::Blank);
    t[DEVICES] = devices;
    t[CELLS] = cells;
    Ok(Answer::Done)
}
