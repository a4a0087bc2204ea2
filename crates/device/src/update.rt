// update: one update joined to the open transaction.
ghost use Rattle.std.specs.Prelude.{ℕ};
ghost use Rattle.protocol.specs.Machine.{update_at};
ghost use Rattle.record.specs.Valid.{IsRecord};
ghost use Rattle.sheet.specs.Sheet.{sheet};
ghost use Rattle.sheet.specs.Answer.{meaning};
ghost use Rattle.record.specs.Did.{Did};
ghost use Rattle.device.specs.Named.{update_of};

use cells::joining::{change_of, join};
use cells::stored::is_finite_update;
use cells::{Change, Update};
use protocol::Refusal;
use sheet::Answer;
use words::extent::Extent;
use words::layout::TRANSACTION;
use words::place::{get, put};

pub fn update(r: &mut [u64], extent: Extent, cell: u64, u: Update) -> Result<Answer, Refusal>
    requires { IsRecord extent.devices extent.cells r.old }
    // for every d: whether a cell update is refused does not depend on the device
    ensures { (d : ℕ) → Did extent.devices extent.cells (update_at sheet extent.cells d (update_of cell u)) r.old (meaning result) r.new }
{
    if cell >= extent.cells as u64 {
        return Err(Refusal::NoCell);
    }
    if !is_finite_update(u) {
        return Err(Refusal::NotFinite);
    }
    let k = cell as usize;
    let before = get::<Change>(r, TRANSACTION, k);
    put(r, TRANSACTION, k, join(before, change_of(u)));
    Ok(Answer::Done)
}
