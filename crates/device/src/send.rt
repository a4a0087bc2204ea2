// send: one round of the push buffer, added to pending and to the channel, and the buffer emptied.
ghost use Rattle.protocol.specs.Machine.{send_at};
ghost use Rattle.record.specs.Valid.{IsRecord};
ghost use Rattle.sheet.specs.Sheet.{sheet};
ghost use Rattle.sheet.specs.Answer.{meaning};
ghost use Rattle.record.specs.Did.{Did};

use cells::Change;
use protocol::Refusal;
use queues::round::add_round;
use sheet::Answer;
use words::extent::Extent;
use words::layout::{
    BUFFERED, CHANNEL, COVERED, ESTABLISHED, PENDING, PENDING_LENGTH, QUEUE, WAITING,
    WAITING_LENGTH,
};
use words::run::fill;

pub fn send(r: &mut [u64], extent: Extent) -> Result<Answer, Refusal>
    requires { IsRecord extent.devices extent.cells r.old }
    ensures { Did extent.devices extent.cells (send_at sheet) r.old (meaning result) r.new }
{
    if r[CHANNEL] != ESTABLISHED {
        return Err(Refusal::NotEstablished);
    }
    if r[COVERED] == 0 {
        return Err(Refusal::NoPush);
    }
    if r[PENDING_LENGTH] >= QUEUE as u64 {
        return Err(Refusal::PendingFull);
    }
    add_round(r, PENDING_LENGTH, PENDING, extent.cells);
    add_round(r, WAITING_LENGTH, WAITING, extent.cells);
    fill(r, BUFFERED, extent.cells, Change::Nothing);
    r[COVERED] = 0;
    Ok(Answer::Done)
}
