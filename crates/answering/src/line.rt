// The answer to a line, on any words.
ghost use Rattle.std.specs.Prelude.{◌≡◌, min};
ghost use Rattle.protocol.specs.Machine.{step};
ghost use Rattle.protocol.specs.Machine as machine;
ghost use Rattle.sheet.specs.Sheet.{sheet};
ghost use Rattle.sheet.specs.Answer.{meaning};
ghost use Rattle.words.specs.Place.{Decides};
ghost use Rattle.table.specs.Promise.{Stepped};
ghost use Rattle.answering.specs.Program.{asked, act_step, count_list};
ghost use Rattle.answering.specs.Answered.{Small, StartedSmall, Does, Answered};

use devices::calls::{ask, confirmed, give_up, pull, push, read, receive, send, update};
use protocol::Refusal;
use server::calls::{accept, batch, crash, cut, serverdrop};
use sheet::Answer;
use steps::parse::{Counts, Step, parse_line};
use table::begin::start;
use table::check::are_sizes;
use wording::names::Act;
use words::layout::{DEVICES, RECORD, RECORDS};
use words::list::word_at;

// The program's own bounds, and the words that a table takes within them.
const MOST_DEVICES: u64 = 3;

const MOST_CELLS: u64 = 16;

pub const WORDS: usize = RECORDS + RECORD * 3;

fn is_small(devices: u64, cells: u64) -> bool
    ensures { Decides result (Small devices cells) }
{
    devices <= MOST_DEVICES && cells <= MOST_CELLS
}

// start, within the program's bounds.
fn start_small(t: &mut [u64], devices: u64, cells: u64) -> Result<Answer, Refusal>
    ensures { StartedSmall devices cells t.old (meaning result) t.new }
{
    if !are_sizes(devices, cells) {
        return Err(Refusal::OutsideAllowed);
    }
    if !is_small(devices, cells) {
        return Err(Refusal::NoTable);
    }
    start(t, devices, cells)
}

// How many of three counts stand in the list.
fn number_of_counts(number: u64) -> usize
    ensures { result ≡ min number 3 }
{
    number.min(3) as usize
}

fn batch_counts(t: &mut [u64], counts: Counts) -> Result<Answer, Refusal>
    ensures { Stepped (step sheet (machine.batch (count_list counts))) t.old (meaning result) t.new }
{
    let list = [counts.first, counts.second, counts.third];
    let n = number_of_counts(counts.number);
    batch(t, &list[..n])
}

fn cut_counts(t: &mut [u64], counts: Counts, reach: u64) -> Result<Answer, Refusal>
    ensures { Stepped (step sheet (machine.cut (count_list counts) reach)) t.old (meaning result) t.new }
{
    let list = [counts.first, counts.second, counts.third];
    let n = number_of_counts(counts.number);
    cut(t, &list[..n], reach)
}

// The answer to a step that names a device alone.
fn answer_act(t: &mut [u64], act: Act, device: u64) -> Result<Answer, Refusal>
    ensures { Stepped (step sheet (act_step act device)) t.old (meaning result) t.new }
{
    match act {
        Act::Push => push(t, device),
        Act::Send => send(t, device),
        Act::Confirmed => confirmed(t, device),
        Act::Ask => ask(t, device),
        Act::Drop => give_up(t, device),
        Act::Receive => receive(t, device),
        Act::Pull => pull(t, device),
        Act::Accept => accept(t, device),
        Act::Serverdrop => serverdrop(t, device),
    }
}

// The answer to a step.
fn answer_step(t: &mut [u64], s: Step) -> Result<Answer, Refusal>
    ensures { Does (asked s) t.old (meaning result) t.new }
{
    match s {
        Step::Start(devices, cells) => start_small(t, devices, cells),
        Step::Update(device, cell, u) => update(t, device, cell, u),
        Step::Read(device, cell) => read(t, device, cell),
        Step::Device(act, device) => answer_act(t, act, device),
        Step::Crash => crash(t),
        Step::Batch(counts) => batch_counts(t, counts),
        Step::Cut(counts, reach) => cut_counts(t, counts, reach),
    }
}

// The answer to a line. The table's first word says how many devices there are since the last start, 0 before one.
pub fn answer(t: &mut [u64], line: &[u8]) -> Result<Answer, Refusal>
    ensures { Answered line.now t.old (meaning result) t.new }
{
    let devices = word_at(t, DEVICES);
    match parse_line(devices, line) {
        Some(s) => answer_step(t, s),
        None => Err(Refusal::NoStep),
    }
}
