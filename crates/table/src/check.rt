// Whether lent contents are a table.
ghost use Rattle.std.specs.Prelude.{ℕ, ◌+◌, ◌*◌, ◌≤◌, ◌<◌, length};
ghost use Rattle.protocol.specs.Fits.{Sizes};
ghost use Rattle.words.specs.Layout.{MOST_CELLS, MOST_DEVICES, RECORD, RECORDS};
ghost use Rattle.words.specs.Place.{Decides};
ghost use Rattle.record.specs.Valid.{IsRecord};
ghost use Rattle.table.specs.Table.{record_at, IsTable};

use cells::Cell;
use checking::check::is_record;
use words::check::are_valid;
use words::extent::Extent;
use words::layout::{CELLS, DEVICES, MOST_CELLS, MOST_DEVICES, RECORD, RECORDS, SHEET};

// Whether a table may have so many devices and cells.
pub fn are_sizes(devices: u64, cells: u64) -> bool
    ensures { Decides result (Sizes devices cells) }
{
    1 <= devices && devices <= MOST_DEVICES as u64 && 1 <= cells && cells <= MOST_CELLS as u64
}

// Whether the first n records are a table's of so many devices and cells.
fn are_records(t: &[u64], n: usize, extent: Extent) -> bool
    requires { (n ≤ MOST_DEVICES) × (RECORDS + RECORD * n ≤ length t.now) }
    ensures { Decides result ((d : ℕ) → d < n → IsRecord extent.devices extent.cells (record_at t.now d)) }
{
    for d in 0..n {
        let a = RECORDS + RECORD * d;
        if !is_record(&t[a..a + RECORD], extent) {
            return false;
        }
    }
    true
}

// Whether the contents are a table.
pub fn is_table(t: &[u64]) -> bool
    ensures { Decides result (IsTable t.now) }
{
    if t.len() < RECORDS || !are_sizes(t[DEVICES], t[CELLS]) {
        return false;
    }
    let devices = t[DEVICES] as usize;
    let cells = t[CELLS] as usize;
    t.len() >= RECORDS + RECORD * devices
        && are_valid::<Cell>(t, SHEET, cells)
        && are_records(t, devices, Extent { devices, cells })
}
