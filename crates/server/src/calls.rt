// The server's steps as public calls: on any slice, for any number of a device.
ghost use Rattle.protocol.specs.Machine.{step};
ghost use Rattle.protocol.specs.Machine as machine;
ghost use Rattle.sheet.specs.Sheet.{sheet};
ghost use Rattle.sheet.specs.Answer.{meaning};
ghost use Rattle.table.specs.Promise.{Stepped};

use crate::batch::take_rounds;
use crate::ends::end_all;
use crate::prefix::make_prefix;
use link::accept::take_request;
use link::ends::drop_connection;
use protocol::Refusal;
use sheet::Answer;
use table::known::{extent_of, extent_with};
use words::layout::{ITEM, RECORD, RECORDS};

pub fn serverdrop(t: &mut [u64], d: u64) -> Result<Answer, Refusal>
    ensures { Stepped (step sheet (machine.serverdrop d)) t.old (meaning result) t.new }
{
    let extent = extent_with(t, d)?;
    let a = RECORDS + RECORD * (d as usize);
    let e = a + RECORD;
    drop_connection(&mut t[a..e], extent)
}

pub fn crash(t: &mut [u64]) -> Result<Answer, Refusal>
    ensures { Stepped (step sheet machine.crash) t.old (meaning result) t.new }
{
    let extent = extent_of(t)?;
    end_all(t, extent);
    Ok(Answer::Done)
}

pub fn accept(t: &mut [u64], d: u64) -> Result<Answer, Refusal>
    ensures { Stepped (step sheet (machine.accept d)) t.old (meaning result) t.new }
{
    let extent = extent_with(t, d)?;
    let mut prefix = [0u64; ITEM];
    make_prefix(&mut prefix, t, extent);
    let a = RECORDS + RECORD * (d as usize);
    let e = a + RECORD;
    take_request(&mut t[a..e], &prefix, extent)
}

// "a device without a count in the list has 0, counts past the last device are ignored"
pub fn batch(t: &mut [u64], counts: &[u64]) -> Result<Answer, Refusal>
    ensures { Stepped (step sheet (machine.batch counts.now)) t.old (meaning result) t.new }
{
    let extent = extent_of(t)?;
    let reach = extent.devices as u64;
    Ok(Answer::Moved(take_rounds(t, counts, reach, false, extent)))
}

// A stop after a batch is stored. It is a crash also where no round was taken.
pub fn cut(t: &mut [u64], counts: &[u64], reach: u64) -> Result<Answer, Refusal>
    ensures { Stepped (step sheet (machine.cut counts.now reach)) t.old (meaning result) t.new }
{
    let extent = extent_of(t)?;
    let moved = take_rounds(t, counts, reach, true, extent);
    if moved != 0 {
        return Ok(Answer::Moved(moved));
    }
    end_all(t, extent);
    Ok(Answer::Moved(0))
}
