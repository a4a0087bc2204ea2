// drop: the channel given up, and its request.
ghost use Rattle.protocol.specs.Machine.{drop_at};
ghost use Rattle.record.specs.Valid.{IsRecord};
ghost use Rattle.sheet.specs.Sheet.{sheet};
ghost use Rattle.sheet.specs.Answer.{meaning};
ghost use Rattle.record.specs.Did.{Did};

use crate::renew::renew;
use protocol::Refusal;
use sheet::Answer;
use words::extent::Extent;
use words::layout::CHANNEL;

pub fn give_up(r: &mut [u64], extent: Extent) -> Result<Answer, Refusal>
    requires { IsRecord extent.devices extent.cells r.old }
    ensures { Did extent.devices extent.cells (drop_at sheet) r.old (meaning result) r.new }
{
    if r[CHANNEL] == 0 {
        return Err(Refusal::NothingToDrop);
    }
    Ok(renew(r, extent, 0, 0))
}
