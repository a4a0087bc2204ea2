// One dispatcher for the steps of a device that may change its record.
ghost use Rattle.std.specs.Prelude.{◌<◌};
ghost use Rattle.record.specs.Valid.{IsRecord};
ghost use Rattle.record.specs.Did.{Did};
ghost use Rattle.device.specs.Named.{step_of};
ghost use Rattle.sheet.specs.Answer.{meaning};

use crate::ask::ask;
use crate::give_up::give_up;
use crate::pull::pull;
use crate::push::push;
use crate::receive::receive;
use crate::send::send;
use crate::update::update;
use cells::Update;
use protocol::Refusal;
use sheet::Answer;
use words::extent::Extent;

// A step of one device; an update names its cell.
#[derive(Clone, Copy, Debug, PartialEq)]
pub enum Operation {
    Update(u64, Update),
    Push,
    Send,
    Ask,
    Drop,
    Receive,
    Pull,
}

pub fn on_record(
    r: &mut [u64],
    extent: Extent,
    d: usize,
    operation: Operation,
) -> Result<Answer, Refusal>
    requires { IsRecord extent.devices extent.cells r.old × (d < extent.devices) }
    ensures { Did extent.devices extent.cells (step_of extent.cells d operation) r.old (meaning result) r.new }
{
    match operation {
        Operation::Update(cell, u) => update(r, extent, cell, u),
        Operation::Push => push(r, extent),
        Operation::Send => send(r, extent),
        Operation::Ask => Ok(ask(r, extent)),
        Operation::Drop => give_up(r, extent),
        Operation::Receive => receive(r, extent, d),
        Operation::Pull => Ok(pull(r, extent, d)),
    }
}
