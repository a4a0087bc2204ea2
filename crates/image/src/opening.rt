// The image opened into a table.
ghost use Rattle.std.specs.Prelude.{◌≡◌, ◌+◌, ◌*◌, ◌≤◌, length, get_or};
ghost use Rattle.protocol.specs.Fits.{Sizes};
ghost use Rattle.words.specs.Layout.{RECORD, RECORDS};
ghost use Rattle.record.specs.Reading.{sheet_at};
ghost use Rattle.record.specs.Begun.{Begun};
ghost use Rattle.table.specs.Promise.{Begins};
ghost use Rattle.image.specs.Words.{CellsAt, cells_of, numbers_of};
ghost use Rattle.image.specs.Promise.{start_of, Makes, Opened};
ghost use Rattle.sheet.specs.Answer.{meaning};

use crate::reading::decode;
use cells::Cell;
use protocol::Refusal;
use record::begin::begin_knowing;
use sheet::Answer;
use words::across::copy_from;
use words::extent::Extent;
use words::layout::{
    CELL, CELLS, DEVICES, KNOWN, MOST_CELLS, MOST_DEVICES, RECORD, RECORDS, SHEET,
};

// Begins a record that knows the cells of `sheet`.
fn begin_record(r: &mut [u64], cells: usize, number: u64, sheet: &[u64])
    requires { (length r.old ≡ RECORD) × (cells ≤ 64) × CellsAt sheet.now 0 cells }
    ensures { Begun cells (sheet_at cells sheet.now 0) number r.old r.new }
{
    copy_from::<Cell>(r, KNOWN, sheet, 0, cells);
    begin_knowing(r, cells, number);
}

// Begins the devices' records, each at its number.
fn begin_records(t: &mut [u64], extent: Extent, sheet: &[u64], numbers: &[u64])
    requires { (RECORDS + RECORD * extent.devices ≤ length t.old) × (extent.devices ≤ length numbers.now) × CellsAt sheet.now 0 extent.cells }
    ensures { Begins extent.cells (sheet_at extent.cells sheet.now 0) (λ d. get_or numbers.now d 0) t.old t.new extent.devices }
{
    for (d, &number) in numbers[..extent.devices].iter().enumerate() {
        let a = RECORDS + RECORD * d;
        begin_record(&mut t[a..a + RECORD], extent.cells, number, sheet);
    }
}

// The table of so many devices and cells, where there is room: the records, the server's sheet, the header.
fn make_table(
    t: &mut [u64],
    extent: Extent,
    sheet: &[u64],
    numbers: &[u64],
) -> Result<Answer, Refusal>
    requires { Sizes extent.devices extent.cells × (extent.devices ≤ length numbers.now) × CellsAt sheet.now 0 extent.cells }
    ensures { Makes (start_of (cells_of sheet.now extent.cells) (numbers_of numbers.now extent.devices)) t.old (meaning result) t.new }
{
    if t.len() < RECORDS + RECORD * extent.devices {
        return Err(Refusal::NoTable);
    }
    begin_records(t, extent, sheet, numbers);
    copy_from::<Cell>(t, SHEET, sheet, 0, extent.cells);
    t[DEVICES] = extent.devices as u64;
    t[CELLS] = extent.cells as u64;
    Ok(Answer::Done)
}

pub fn open_image(t: &mut [u64], bytes: &[u8]) -> Result<Answer, Refusal>
    ensures { Opened bytes.now t.old (meaning result) t.new }
{
    let mut sheet = [0u64; CELL * MOST_CELLS];
    let mut numbers = [0u64; MOST_DEVICES];
    let Some(extent) = decode(bytes, &mut sheet, &mut numbers) else {
        return Err(Refusal::NoImage);
    };
    make_table(t, extent, &sheet, &numbers)
}
