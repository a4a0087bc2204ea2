// The step that a line is.
ghost use Rattle.std.specs.Prelude.{◌≡◌};
ghost use Rattle.steps.specs.Parse.{count_at, counts_of, counts_fit, pair_of, step_of, parse_line};

use cells::Update;
use text::field::{commas, field};
use wording::names::{Act, Kind, kind_of};
use wording::values::{number_at, update_at};

// The counts of a batch or a cut: how many there are, at most 3, and what they are, 0 for those that are not there.
#[derive(Clone, Copy, Debug, PartialEq, Eq)]
pub struct Counts {
    pub number: u64,
    pub first: u64,
    pub second: u64,
    pub third: u64,
}

#[derive(Clone, Copy, Debug, PartialEq)]
pub enum Step {
    // Devices, cells.
    Start(u64, u64),
    // Device, cell, and what is done to it.
    Update(u64, u64, Update),
    // Device, cell.
    Read(u64, u64),
    // A step that names a device alone.
    Device(Act, u64),
    Crash,
    Batch(Counts),
    // The counts, and the number below which devices are reached.
    Cut(Counts, u64),
}

// Count k of n: 0 where there are fewer.
#[tactic(auto, unfolding(crate::specs::Parse::count_at))]
fn count_at(line: &[u8], n: usize, k: usize) -> Option<u64>
    ensures { result ≡ count_at n k line.now }
{
    if n < k { Some(0) } else { number_at(line, k) }
}

#[tactic(auto, unfolding(crate::specs::Parse::counts_of))]
fn counts_of(line: &[u8], n: usize) -> Option<Counts>
    ensures { result ≡ counts_of n line.now }
{
    Some(Counts {
        number: n as u64,
        first: count_at(line, n, 1)?,
        second: count_at(line, n, 2)?,
        third: count_at(line, n, 3)?,
    })
}

// Whether n counts may stand: 1 to 3, and after a start one for each device.
#[tactic(auto, unfolding(crate::specs::Parse::counts_fit))]
fn counts_fit(devices: u64, n: usize) -> bool
    ensures { result ≡ counts_fit devices n }
{
    1 <= n && n <= 3 && (devices == 0 || n as u64 == devices)
}

// Fields 1 and 2 as numbers.
#[tactic(auto, unfolding(crate::specs::Parse::pair_of))]
fn pair_of(line: &[u8]) -> Option<(u64, u64)>
    ensures { result ≡ pair_of line.now }
{
    Some((number_at(line, 1)?, number_at(line, 2)?))
}

// The step of a kind, of a line with n commas.
#[tactic(auto, unfolding(crate::specs::Parse::step_of))]
fn step_of(kind: Kind, devices: u64, line: &[u8], n: usize) -> Option<Step>
    ensures { result ≡ step_of kind devices n line.now }
{
    let step = match kind {
        Kind::Start if n == 2 => {
            let (devices, cells) = pair_of(line)?;
            Step::Start(devices, cells)
        }
        Kind::Read if n == 2 => {
            let (device, cell) = pair_of(line)?;
            Step::Read(device, cell)
        }
        Kind::Update => {
            let (device, cell) = pair_of(line)?;
            Step::Update(device, cell, update_at(line, n)?)
        }
        Kind::Device(act) if n == 1 => Step::Device(act, number_at(line, 1)?),
        Kind::Crash if n == 0 => Step::Crash,
        Kind::Batch if counts_fit(devices, n) => Step::Batch(counts_of(line, n)?),
        Kind::Cut if n > 0 && counts_fit(devices, n - 1) => {
            Step::Cut(counts_of(line, n - 1)?, number_at(line, n)?)
        }
        _ => return None,
    };
    Some(step)
}

// The step that the line is; devices is their number since the last start, and 0 before one.
#[tactic(auto, unfolding(crate::specs::Parse::parse_line))]
pub fn parse_line(devices: u64, line: &[u8]) -> Option<Step>
    ensures { result ≡ parse_line devices line.now }
{
    if 80 < line.len() {
        return None;
    }
    step_of(kind_of(field(line, 0))?, devices, line, commas(line))
}
