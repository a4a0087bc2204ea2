// The device steps as public calls: on any slice, for any number of a device.
ghost use Rattle.protocol.specs.Machine.{step};
ghost use Rattle.protocol.specs.Machine as machine;
ghost use Rattle.std.specs.Prelude.{◌<◌, get_or};
ghost use Rattle.sheet.specs.Sheet.{sheet};
ghost use Rattle.sheet.specs.Answer.{meaning};
ghost use Rattle.words.specs.Layout.{DEVICES};
ghost use Rattle.device.specs.Named.{table_step, update_of};
ghost use Rattle.looking.specs.Look.{question_step};
ghost use Rattle.table.specs.Promise.{Stepped};
ghost use Rattle.table.specs.Table.{IsTable};

use cells::Update;
use device::step::{Operation, on_record};
use looking::look::{Question, look};
use protocol::Refusal;
use sheet::Answer;
use table::known::extent_with;
use words::extent::Extent;
use words::layout::{CELLS, DEVICES, RECORD, RECORDS};

// Any step of device d of a table that has it.
pub fn on_known(t: &mut [u64], d: u64, operation: Operation) -> Result<Answer, Refusal>
    requires { IsTable t.old × (d < get_or t.old DEVICES 0) }
    ensures { Stepped (step sheet (table_step d operation)) t.old (meaning result) t.new }
{
    let extent = Extent {
        devices: t[DEVICES] as usize,
        cells: t[CELLS] as usize,
    };
    let a = RECORDS + RECORD * (d as usize);
    let e = a + RECORD;
    on_record(&mut t[a..e], extent, d as usize, operation)
}

// Any step of device d.
fn on_device(t: &mut [u64], d: u64, operation: Operation) -> Result<Answer, Refusal>
    ensures { Stepped (step sheet (table_step d operation)) t.old (meaning result) t.new }
{
    extent_with(t, d)?;
    on_known(t, d, operation)
}

// Any question to device d; the table stays as it is.
fn ask_device(t: &[u64], d: u64, q: Question) -> Result<Answer, Refusal>
    ensures { Stepped (step sheet (question_step d q)) t.now (meaning result) t.now }
{
    let extent = extent_with(t, d)?;
    let a = RECORDS + RECORD * (d as usize);
    let e = a + RECORD;
    look(&t[a..e], extent, q)
}

pub fn update(t: &mut [u64], d: u64, cell: u64, u: Update) -> Result<Answer, Refusal>
    ensures { Stepped (step sheet (machine.update d (update_of cell u))) t.old (meaning result) t.new }
{
    on_device(t, d, Operation::Update(cell, u))
}

pub fn read(t: &[u64], d: u64, cell: u64) -> Result<Answer, Refusal>
    ensures { Stepped (step sheet (machine.read d cell)) t.now (meaning result) t.now }
{
    ask_device(t, d, Question::Read(cell))
}

pub fn push(t: &mut [u64], d: u64) -> Result<Answer, Refusal>
    ensures { Stepped (step sheet (machine.push d)) t.old (meaning result) t.new }
{
    on_device(t, d, Operation::Push)
}

pub fn send(t: &mut [u64], d: u64) -> Result<Answer, Refusal>
    ensures { Stepped (step sheet (machine.send d)) t.old (meaning result) t.new }
{
    on_device(t, d, Operation::Send)
}

pub fn confirmed(t: &[u64], d: u64) -> Result<Answer, Refusal>
    ensures { Stepped (step sheet (machine.confirmed d)) t.now (meaning result) t.now }
{
    ask_device(t, d, Question::Confirmed)
}

pub fn ask(t: &mut [u64], d: u64) -> Result<Answer, Refusal>
    ensures { Stepped (step sheet (machine.ask d)) t.old (meaning result) t.new }
{
    on_device(t, d, Operation::Ask)
}

// Document 01's drop.
pub fn give_up(t: &mut [u64], d: u64) -> Result<Answer, Refusal>
    ensures { Stepped (step sheet (machine.drop_channel d)) t.old (meaning result) t.new }
{
    on_device(t, d, Operation::Drop)
}

pub fn receive(t: &mut [u64], d: u64) -> Result<Answer, Refusal>
    ensures { Stepped (step sheet (machine.receive d)) t.old (meaning result) t.new }
{
    on_device(t, d, Operation::Receive)
}

pub fn pull(t: &mut [u64], d: u64) -> Result<Answer, Refusal>
    ensures { Stepped (step sheet (machine.pull d)) t.old (meaning result) t.new }
{
    on_device(t, d, Operation::Pull)
}
