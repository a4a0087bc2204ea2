// read: a cell's value in known sheet, pending, push buffer and open transaction, applied in that order. No other cell is looked at.
ghost use Rattle.std.specs.Prelude.{◌≡◌, ◌<◌};
ghost use Rattle.protocol.specs.Machine.{apply_rounds, read_at};
ghost use Rattle.record.specs.Reading.{device_of};
ghost use Rattle.record.specs.Valid.{IsRecord};
ghost use Rattle.sheet.specs.Sheet.{sheet};
ghost use Rattle.sheet.specs.Answer.{meaning};
ghost use Rattle.record.specs.Did.{Tells};

use cells::joining::apply;
use cells::{Cell, Change};
use protocol::Refusal;
use sheet::Answer;
use words::extent::Extent;
use words::layout::{BUFFERED, KNOWN, PENDING, PENDING_LENGTH, ROUND, ROUND_CHANGES, TRANSACTION};
use words::place::get;

// Cell k of the known sheet, with each pending round applied to it.
fn with_pending(r: &[u64], extent: Extent, k: usize) -> Cell
    requires { IsRecord extent.devices extent.cells r.now × (k < extent.cells) }
    ensures { result ≡ apply_rounds sheet (device_of extent.devices extent.cells r.now).pending (device_of extent.devices extent.cells r.now).known k }
{
    let n = r[PENDING_LENGTH] as usize;
    let mut c = get::<Cell>(r, KNOWN, k);
    for j in 0..n {
        c = apply(c, get::<Change>(r, PENDING + ROUND * j + ROUND_CHANGES, k));
    }
    c
}

pub fn read(r: &[u64], extent: Extent, cell: u64) -> Result<Answer, Refusal>
    requires { IsRecord extent.devices extent.cells r.now }
    ensures { Tells extent.devices extent.cells (read_at sheet extent.cells cell) r.now (meaning result) }
{
    if cell >= extent.cells as u64 {
        return Err(Refusal::NoCell);
    }
    let k = cell as usize;
    let sent = with_pending(r, extent, k);
    let pushed = apply(sent, get::<Change>(r, BUFFERED, k));
    Ok(Answer::Value(apply(pushed, get::<Change>(r, TRANSACTION, k))))
}
