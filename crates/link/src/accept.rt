// accept on a device's record.
ghost use Rattle.protocol.specs.Machine.{accept_with};
ghost use Rattle.sheet.specs.Sheet.{sheet};
ghost use Rattle.sheet.specs.Answer.{meaning};
ghost use Rattle.words.specs.Layout.{ITEM_KIND};
ghost use Rattle.record.specs.Reading.{item_at};
ghost use Rattle.record.specs.Valid.{IsRecord};
ghost use Rattle.record.specs.Did.{Did};
ghost use Rattle.delivery.specs.Deliver.{ItemReady};

use delivery::deliver::put_behind;
use protocol::Refusal;
use sheet::Answer;
use words::extent::Extent;
use words::layout::{CONNECTION, LIVE, REQUEST};

// Takes the request: the item, which is the present prefix, is the first on the channel.
pub fn take_request(r: &mut [u64], item: &[u64], extent: Extent) -> Result<Answer, Refusal>
    requires { IsRecord extent.devices extent.cells r.old × ItemReady extent.devices extent.cells item.now }
    ensures { Did extent.devices extent.cells (accept_with sheet (item_at extent.devices extent.cells item.now ITEM_KIND)) r.old (meaning result) r.new }
{
    if r[REQUEST] == 0 {
        return Err(Refusal::NoRequest);
    }
    if r[CONNECTION] != 0 {
        return Err(Refusal::Held);
    }
    put_behind(r, item, extent);
    r[REQUEST] = 0;
    r[CONNECTION] = LIVE;
    Ok(Answer::Done)
}
