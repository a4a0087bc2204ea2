// The text of an answer.
ghost use Rattle.std.specs.Prelude.{Ok, ◌≡◌, ◌+◌, ◌≤◌, ◌++◌, length};
ghost use Rattle.std.specs.Float.Ieee.{to_bits};
ghost use Rattle.std.specs.Float.{binary64};
ghost use Rattle.sheet.specs.Answer.{meaning};
ghost use Rattle.text.specs.Text.{Put, decimal_text};
ghost use Rattle.answers.specs.Answer.{PutUpTo, cell_text, answer_text, answer_line};

use cells::Cell;
use sheet::refused::Refused;
use sheet::{Answer, number_of};
use text::put::{put, put_decimal, put_hex, put_signed};

// The pattern of a measured number; a NaN has one of its own.
fn bits_of(x: f64) -> u64
    ensures { result ≡ to_bits binary64 x }
{
    if x.is_nan() {
        0x7FF8_0000_0000_0000
    } else {
        x.to_bits()
    }
}

// A cell's value at a place of the buffer, which has room for 32 bytes there.
fn put_cell(out: &mut [u8], at: usize, v: Cell) -> usize
    requires { at + 32 ≤ length out.old }
    ensures { PutUpTo 32 out.old at (cell_text v) out.new result }
{
    match v {
        Cell::Blank => put(out, at, b"blank"),
        Cell::Count(n) => {
            let m = put(out, at, b"count,");
            put_signed(out, m, n)
        }
        Cell::Measure(x) => {
            let m = put(out, at, b"measure,");
            put_hex(out, m, 16, bits_of(x))
        }
    }
}

// A word and its comma, and a number.
fn put_numbered(out: &mut [u8], at: usize, word: &[u8], k: u64) -> usize
    requires { at + length word.now + 20 ≤ length out.old }
    ensures { Put out.old at (word.now ++ decimal_text k) out.new result }
{
    let m = put(out, at, word);
    put_decimal(out, m, k)
}

// What a call answers that is not refused, at a place of the buffer, which has room for 32 bytes there.
fn put_given(out: &mut [u8], at: usize, a: Answer) -> usize
    requires { at + 32 ≤ length out.old }
    ensures { PutUpTo 32 out.old at (answer_text (meaning (Ok a))) out.new result }
{
    match a {
        Answer::Done => put(out, at, b"done"),
        Answer::Value(v) => put_cell(out, at, v),
        Answer::Yes => put(out, at, b"yes"),
        Answer::No => put(out, at, b"no"),
        Answer::Moved(k) => put_numbered(out, at, b"moved,", k),
        Answer::Length(_) => at,
    }
}

// The answer at a place of the buffer, which has room for 32 bytes there.
pub fn put_answer<E: Refused>(out: &mut [u8], at: usize, a: Result<Answer, E>) -> usize
    requires { at + 32 ≤ length out.old }
    ensures { PutUpTo 32 out.old at (answer_text (E.meant a)) out.new result }
{
    match a {
        Ok(given) => put_given(out, at, given),
        Err(e) => {
            let (refusal, _) = e.told();
            put_numbered(out, at, b"refused,", number_of(refusal))
        }
    }
}

// The answer and the CR LF that ends its line, at a place of the buffer with room for 34 bytes.
pub fn put_answer_line<E: Refused>(out: &mut [u8], at: usize, a: Result<Answer, E>) -> usize
    requires { at + 34 ≤ length out.old }
    ensures { PutUpTo 34 out.old at (answer_line (E.meant a)) out.new result }
{
    let m = put_answer(out, at, a);
    put(out, m, b"\r\n")
}
