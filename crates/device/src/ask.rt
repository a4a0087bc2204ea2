// ask: the channel replaced by a new one, not established, with a request.
ghost use Rattle.std.specs.Prelude.{Ok};
ghost use Rattle.protocol.specs.Machine.{ask_at};
ghost use Rattle.record.specs.Valid.{IsRecord};
ghost use Rattle.sheet.specs.Sheet.{sheet};
ghost use Rattle.sheet.specs.Answer.{meaning};
ghost use Rattle.record.specs.Did.{Did};

use crate::renew::renew;
use sheet::Answer;
use words::extent::Extent;
use words::layout::ASKED;

pub fn ask(r: &mut [u64], extent: Extent) -> Answer
    requires { IsRecord extent.devices extent.cells r.old }
    ensures { Did extent.devices extent.cells (ask_at sheet) r.old (meaning (Ok result)) r.new }
{
    renew(r, extent, ASKED, 1)
}
