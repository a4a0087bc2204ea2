// The image written: from lent words, and from a table.
ghost use Rattle.std.specs.Prelude.{ℕ, ◌+◌, ◌*◌, ◌<◌, ◌≤◌, length};
ghost use Rattle.cbor.specs.Bytes.{Wrote};
ghost use Rattle.cbor.specs.Code.{each, array_of};
ghost use Rattle.record.specs.Reading.{queue};
ghost use Rattle.image.specs.Element.{spaced};
ghost use Rattle.image.specs.Words.{NumbersAt, Stored, image_at};
ghost use Rattle.image.specs.Promise.{Stores, Written};
ghost use Rattle.sheet.specs.Answer.{meaning};

use crate::element::Element;
use cbor::head::write_head;
use cbor::major::Major;
use cells::Cell;
use protocol::Refusal;
use sheet::Answer;
use table::known::extent_of;
use words::layout::{CELL, RECORD, RECORDS, SHEET, TAKEN};

// Where the cells and the numbers lie: how many cells, and their first word; how many devices, device 0's number, and the words from one number to the next.
#[derive(Clone, Copy, Debug, PartialEq, Eq)]
pub struct Places {
    pub cells: usize,
    pub sheet: usize,
    pub devices: usize,
    pub first: usize,
    pub stride: usize,
}

// The bytes of n elements: the first one stands at `first`, each further one `stride` words later.
fn write_elements<T: Element>(
    words: &[u64],
    first: usize,
    stride: usize,
    n: usize,
    out: &mut [u8],
    at: usize,
) -> usize
    requires in_words { NumbersAt words.now first stride n }
    requires ready { (k : ℕ) → k < n → T.Ready words.now (first + stride * k) }
    requires in_bounds { at + length (each T.code (queue n (spaced T.stands words.now first stride))) ≤ length out.old }
    ensures { Wrote out.old at (each T.code (queue n (spaced T.stands words.now first stride))) out.new result }
{
    let mut p = at;
    for k in 0..n {
        p = T::write(out, p, T::get(words, first + stride * k));
    }
    p
}

// The array of those elements.
fn write_array<T: Element>(
    words: &[u64],
    first: usize,
    stride: usize,
    n: usize,
    out: &mut [u8],
    at: usize,
) -> usize
    requires in_words { NumbersAt words.now first stride n }
    requires ready { (k : ℕ) → k < n → T.Ready words.now (first + stride * k) }
    requires in_bounds { at + length (array_of T.code (queue n (spaced T.stands words.now first stride))) ≤ length out.old }
    ensures { Wrote out.old at (array_of T.code (queue n (spaced T.stands words.now first stride))) out.new result }
{
    let next = write_head(out, at, Major::Array, n as u64);
    write_elements::<T>(words, first, stride, n, out, next)
}

// The image at the front of a buffer that has room for it; answers its length.
fn write_all(words: &[u64], numbers: &[u64], p: Places, out: &mut [u8]) -> usize
    requires stored { Stored words.now numbers.now p }
    requires p_in_bounds { length (image_at words.now numbers.now p) ≤ length out.old }
    ensures { Wrote out.old 0 (image_at words.now numbers.now p) out.new result }
{
    let a = write_head(out, 0, Major::Array, 2);
    let b = write_array::<Cell>(words, p.sheet, CELL, p.cells, out, a);
    write_array::<u64>(numbers, p.first, p.stride, p.devices, out, b)
}

// The bytes of the longest image.
pub const LONGEST: usize = 620;

// Writes the image to the buffer's front, or nothing where it has no room.
#[tactic(auto, using(crate::proofs::Longest::stored_longest))]
pub fn write(words: &[u64], numbers: &[u64], p: Places, out: &mut [u8]) -> Result<Answer, Refusal>
    requires { Stored words.now numbers.now p }
    ensures { Stores (image_at words.now numbers.now p) out.old (meaning result) out.new }
{
    let mut buffer = [0u8; LONGEST];
    let n = write_all(words, numbers, p, &mut buffer);
    if out.len() < n {
        return Err(Refusal::BufferShort);
    }
    out[..n].copy_from_slice(&buffer[..n]);
    Ok(Answer::Length(n as u64))
}

pub fn write_image(t: &[u64], out: &mut [u8]) -> Result<Answer, Refusal>
    ensures { Written t.now out.old (meaning result) out.new }
{
    let extent = extent_of(t)?;
    let places = Places {
        cells: extent.cells,
        sheet: SHEET,
        devices: extent.devices,
        first: RECORDS + TAKEN,
        stride: RECORD,
    };
    write(t, t, places, out)
}
