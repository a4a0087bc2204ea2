// The image of a text.
ghost use Rattle.std.specs.Prelude.{ℕ, ◌*◌, ◌<◌, ◌≤◌, length};
ghost use Rattle.words.specs.Layout.{CELL};
ghost use Rattle.record.specs.Reading.{queue};
ghost use Rattle.imaging.specs.Runs.{RunIs};
ghost use Rattle.imaging.specs.Composed.{TextReadIs, Composed};
ghost use Rattle.sheet.specs.Answer.{meaning};

use crate::line::Line;
use cells::Cell;
use image::writing::{Places, write};
use protocol::Refusal;
use sheet::Answer;
use words::extent::Extent;
use words::layout::{CELL, MOST_CELLS, MOST_DEVICES};

// So many lines, and the place behind them.
#[derive(Clone, Copy, Debug, PartialEq, Eq)]
pub struct Run {
    pub count: usize,
    pub next: usize,
}

// The lines of elements from `from` on, as many as stand there, up to `most`; the elements into the front of `words`.
fn read_lines<T: Line>(s: &[u8], from: usize, most: usize, words: &mut [u64]) -> Run
    requires { (from ≤ length s.now) × (T.width * most ≤ length words.old) }
    ensures { RunIs T.line T.Allowed (λ n. queue n (T.held words.new)) (λ n. (k : ℕ) → k < n → T.Sound words.new k) most s.now from result }
{
    let mut at = from;
    for n in 0..most {
        let Some((x, next)) = T::read_line(s, at) else {
            return Run { count: n, next: at };
        };
        T::put(words, n, x);
        at = next;
    }
    Run {
        count: most,
        next: at,
    }
}

// The whole text, into the fronts of two buffers that have room for any.
fn read_text(s: &[u8], words: &mut [u64], numbers: &mut [u64]) -> Option<Extent>
    requires { (CELL * 64 ≤ length words.old) × (8 ≤ length numbers.old) }
    ensures { TextReadIs s.now words.new numbers.new result }
{
    let cells = read_lines::<Cell>(s, 0, MOST_CELLS, words);
    let devices = read_lines::<u64>(s, cells.next, MOST_DEVICES, numbers);
    let n = cells.count;
    let d = devices.count;
    if n == 0 {
        return None;
    }
    if d == 0 {
        return None;
    }
    if devices.next == s.len() {
        return Some(Extent {
            devices: d,
            cells: n,
        });
    }
    None
}

// The image of the text at the buffer's front; answers its length.
pub fn compose(text: &[u8], out: &mut [u8]) -> Result<Answer, Refusal>
    ensures { Composed text.now out.old (meaning result) out.new }
{
    let mut words = [0u64; CELL * MOST_CELLS];
    let mut numbers = [0u64; MOST_DEVICES];
    let Some(extent) = read_text(text, &mut words, &mut numbers) else {
        return Err(Refusal::NoImage);
    };
    let places = Places {
        cells: extent.cells,
        sheet: 0,
        devices: extent.devices,
        first: 0,
        stride: 1,
    };
    write(&words, &numbers, places, out)
}
