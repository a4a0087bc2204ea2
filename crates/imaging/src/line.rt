// The lines of an image's text: an element of each kind has one of its own.
ghost use Rattle.std.specs.Prelude.{ℕ, List, ◌+◌, ◌≤◌, length};
ghost use Rattle.cbor.specs.Code.{ReadIs};
ghost use Rattle.answers.specs.Answer.{PutUpTo};
ghost use Rattle.listing.specs.Shown.{cell_line, number_line};

use answers::answer::put_answer_line;
use cells::Cell;
use image::element::Element;
use listing::line::{cell_line, number_line};
use protocol::Refusal;
use sheet::Answer;
use text::put::{put, put_decimal};

pub trait Line: Element {
    ghost line: { Self → List ℕ };

    // The element whose line stands at a place, and the place after it.
    fn read_line(s: &[u8], at: usize) -> Option<(Self, usize)>
        requires { at ≤ length s.now }
        ensures { ReadIs line Self.Allowed s.now at result };

    // Its line, at a place with room for 34 bytes.
    fn put_line(out: &mut [u8], at: usize, x: Self) -> usize
        requires { at + 34 ≤ length out.old }
        ensures { PutUpTo 34 out.old at (line x) out.new result };
}

impl Line for Cell {
    ghost line = { cell_line };

    fn read_line(s: &[u8], at: usize) -> Option<(Cell, usize)> {
        cell_line(s, at)
    }

    fn put_line(out: &mut [u8], at: usize, x: Cell) -> usize {
        put_answer_line(out, at, Ok::<Answer, Refusal>(Answer::Value(x)))
    }
}

impl Line for u64 {
    ghost line = { number_line };

    fn read_line(s: &[u8], at: usize) -> Option<(u64, usize)> {
        number_line(s, at)
    }

    fn put_line(out: &mut [u8], at: usize, x: u64) -> usize {
        let m = put(out, at, b"number,");
        let e = put_decimal(out, m, x);
        put(out, e, b"\r\n")
    }
}
