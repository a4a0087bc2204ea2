// One dispatcher for the questions to a device, which change nothing.
ghost use Rattle.record.specs.Valid.{IsRecord};
ghost use Rattle.record.specs.Did.{Tells};
ghost use Rattle.looking.specs.Look.{question_of};
ghost use Rattle.sheet.specs.Answer.{meaning};

use crate::confirmed::confirmed;
use crate::read::read;
use protocol::Refusal;
use sheet::Answer;
use words::extent::Extent;

// A question to one device.
#[derive(Clone, Copy, Debug, PartialEq, Eq)]
pub enum Question {
    Read(u64),
    Confirmed,
}

pub fn look(r: &[u64], extent: Extent, q: Question) -> Result<Answer, Refusal>
    requires { IsRecord extent.devices extent.cells r.now }
    ensures { Tells extent.devices extent.cells (question_of extent.cells q) r.now (meaning result) }
{
    match q {
        Question::Read(cell) => read(r, extent, cell),
        Question::Confirmed => Ok(confirmed(r, extent)),
    }
}
