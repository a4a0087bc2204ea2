// A new channel, or none, in the old one's place.
ghost use Rattle.std.specs.Prelude.{Ok, ◌≤◌};
ghost use Rattle.words.specs.Layout.{ESTABLISHED};
ghost use Rattle.record.specs.Reading.{channel_of, request_of};
ghost use Rattle.record.specs.Valid.{IsRecord};
ghost use Rattle.record.specs.Did.{Did};
ghost use Rattle.device.specs.Named.{renew_at};
ghost use Rattle.sheet.specs.Answer.{meaning};

use sheet::Answer;
use words::extent::Extent;
use words::layout::{CHANNEL, CONNECTION, ITEMS_LENGTH, REQUEST, STALE, WAITING_LENGTH};

// A connection that the server holds is stale from now on, and its rounds keep waiting.
pub fn renew(r: &mut [u64], extent: Extent, channel: u64, request: u64) -> Answer
    requires { IsRecord extent.devices extent.cells r.old × (channel ≤ ESTABLISHED) × (request ≤ 1) }
    ensures { Did extent.devices extent.cells (renew_at (channel_of channel) (request_of request)) r.old (meaning (Ok result)) r.new }
{
    let connection = r[CONNECTION];
    r[CHANNEL] = channel;
    r[REQUEST] = request;
    r[ITEMS_LENGTH] = 0;
    if connection == 0 {
        r[WAITING_LENGTH] = 0;
        return Answer::Done;
    }
    r[CONNECTION] = STALE;
    Answer::Done
}
