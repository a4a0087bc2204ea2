// One line of an image's text.
ghost use Rattle.std.specs.Prelude.{◌≡◌, ◌≤◌, length};
ghost use Rattle.listing.specs.Texts.{LineReadIs, count_of, finite_of, measure_of, cell_from, number_from, CellLineIs, NumberLineIs};

use cells::Cell;
use lines::{Fed, feed, none};
use text::field::{commas, field};
use text::number::{bits, decimal, signed_decimal};
use wording::values::{UpdateName, update_name_of};
use words::layout::MOST_PUSHES;

// The line from `from` on, its text into the front of `line`: how many bytes the text has, and the place behind the line's CR LF.
fn line_from(s: &[u8], from: usize, line: &mut [u8]) -> Option<(usize, usize)>
    requires { (from ≤ length s.now) × (81 ≤ length line.old) }
    ensures { LineReadIs s.now from line.new result }
{
    let mut held = none();
    for i in from..s.len() {
        match feed(line, held, s[i]) {
            Fed::More(p) => held = p,
            Fed::Line(k) => return Some((k, i + 1)),
            Fed::Long => return None,
        }
    }
    None
}

#[tactic(auto, unfolding(crate::specs::Texts::count_of))]
fn count_of(f: &[u8]) -> Option<Cell>
    ensures { result ≡ count_of f.now }
{
    Some(Cell::Count(signed_decimal(f)?))
}

#[tactic(auto, unfolding(crate::specs::Texts::finite_of))]
fn finite_of(n: u64) -> Option<Cell>
    ensures { result ≡ finite_of n }
{
    if cells::measured::finite_bits(n) {
        Some(Cell::Measure(cells::measured::f64_of_bits(n)))
    } else {
        None
    }
}

#[tactic(auto, unfolding(crate::specs::Texts::measure_of))]
fn measure_of(f: &[u8]) -> Option<Cell>
    ensures { result ≡ measure_of f.now }
{
    finite_of(bits(f)?)
}

// The cell that a text is.
#[tactic(auto, unfolding(crate::specs::Texts::cell_from, crate::specs::Texts::cell_by))]
fn cell_from(t: &[u8]) -> Option<Cell>
    ensures { result ≡ cell_from t.now }
{
    match (update_name_of(field(t, 0))?, commas(t)) {
        (UpdateName::Blank, 0) => Some(Cell::Blank),
        (UpdateName::Count, 1) => count_of(field(t, 1)),
        (UpdateName::Measure, 1) => measure_of(field(t, 1)),
        _ => None,
    }
}

// The number of a device that a text is.
#[tactic(auto, unfolding(crate::specs::Texts::number_from))]
fn number_from(t: &[u8]) -> Option<u64>
    ensures { result ≡ number_from t.now }
{
    if commas(t) == 1 && field(t, 0) == b"number".as_slice() {
        decimal(field(t, 1), MOST_PUSHES)
    } else {
        None
    }
}

// The cell whose line stands at a place, and the place after it.
pub fn cell_line(s: &[u8], at: usize) -> Option<(Cell, usize)>
    requires { at ≤ length s.now }
    ensures { CellLineIs s.now at result }
{
    let mut line = [0u8; 81];
    let (k, next) = line_from(s, at, &mut line)?;
    let c = cell_from(&line[..k])?;
    Some((c, next))
}

// The number whose line stands at a place, and the place after it.
pub fn number_line(s: &[u8], at: usize) -> Option<(u64, usize)>
    requires { at ≤ length s.now }
    ensures { NumberLineIs s.now at result }
{
    let mut line = [0u8; 81];
    let (k, next) = line_from(s, at, &mut line)?;
    let n = number_from(&line[..k])?;
    Some((n, next))
}
