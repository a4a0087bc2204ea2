// confirmed: whether pending is empty, the push buffer covers no push and the open transaction holds no update.
ghost use Rattle.std.specs.Prelude.{Ok};
ghost use Rattle.protocol.specs.Machine.{confirmed_at};
ghost use Rattle.record.specs.Valid.{IsRecord};
ghost use Rattle.sheet.specs.Sheet.{sheet};
ghost use Rattle.sheet.specs.Answer.{meaning};
ghost use Rattle.record.specs.Did.{Tells};

use sheet::Answer;
use words::check::are_nothing;
use words::extent::Extent;
use words::layout::{COVERED, PENDING_LENGTH, TRANSACTION};

pub fn confirmed(r: &[u64], extent: Extent) -> Answer
    requires { IsRecord extent.devices extent.cells r.now }
    ensures { Tells extent.devices extent.cells (confirmed_at sheet extent.cells) r.now (meaning (Ok result)) }
{
    if r[PENDING_LENGTH] == 0 && r[COVERED] == 0 && are_nothing(r, TRANSACTION, extent.cells) {
        Answer::Yes
    } else {
        Answer::No
    }
}
