// The end of a connection: by serverdrop, or by a crash.
ghost use Rattle.std.specs.Prelude.{Ok, ◌≤◌};
ghost use Rattle.protocol.specs.Machine.{serverdrop_at};
ghost use Rattle.sheet.specs.Sheet.{sheet};
ghost use Rattle.sheet.specs.Answer.{meaning};
ghost use Rattle.record.specs.Reading.{request_of};
ghost use Rattle.record.specs.Valid.{IsRecord};
ghost use Rattle.record.specs.Did.{Did};
ghost use Rattle.link.specs.Ends.{end_at};

use crate::waiting::{drop_waiting, going};
use protocol::Refusal;
use sheet::Answer;
use words::extent::Extent;
use words::layout::{CONNECTION, REQUEST, WAITING_LENGTH};

// No connection is held now. Rounds on a stale one are gone with it, the device's own channel keeps what waits on it.
pub fn end_connection(r: &mut [u64], extent: Extent, request: u64) -> Answer
    requires { IsRecord extent.devices extent.cells r.old × (request ≤ 1) }
    ensures { Did extent.devices extent.cells (end_at (request_of request)) r.old (meaning (Ok result)) r.new }
{
    let k = going(0, r[CONNECTION], r[WAITING_LENGTH], true);
    drop_waiting(r, k as usize, extent.cells);
    r[REQUEST] = request;
    r[CONNECTION] = 0;
    Answer::Done
}

// serverdrop on a device's record.
pub fn drop_connection(r: &mut [u64], extent: Extent) -> Result<Answer, Refusal>
    requires { IsRecord extent.devices extent.cells r.old }
    ensures { Did extent.devices extent.cells (serverdrop_at sheet) r.old (meaning result) r.new }
{
    if r[CONNECTION] == 0 {
        return Err(Refusal::NoConnection);
    }
    let request = r[REQUEST];
    Ok(end_connection(r, extent, request))
}
