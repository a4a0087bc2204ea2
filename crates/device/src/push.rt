// push: the next number, and the open transaction joined to the push buffer.
ghost use Rattle.protocol.specs.Machine.{push_at};
ghost use Rattle.record.specs.Valid.{IsRecord};
ghost use Rattle.sheet.specs.Sheet.{sheet};
ghost use Rattle.sheet.specs.Answer.{meaning};
ghost use Rattle.record.specs.Did.{Did};

use cells::Change;
use protocol::Refusal;
use sheet::Answer;
use words::extent::Extent;
use words::layout::{BUFFERED, COVERED, LAST, MOST_PUSHES, TRANSACTION};
use words::run::{change, fill};

pub fn push(r: &mut [u64], extent: Extent) -> Result<Answer, Refusal>
    requires { IsRecord extent.devices extent.cells r.old }
    ensures { Did extent.devices extent.cells (push_at sheet) r.old (meaning result) r.new }
{
    let last = r[LAST];
    let covered = r[COVERED];
    if last >= MOST_PUSHES {
        return Err(Refusal::PushesSpent);
    }
    change::<Change>(r, BUFFERED, TRANSACTION, extent.cells);
    fill(r, TRANSACTION, extent.cells, Change::Nothing);
    r[LAST] = last + 1;
    r[COVERED] = covered + 1;
    Ok(Answer::Done)
}
