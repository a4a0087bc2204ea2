// The text of an image.
ghost use Rattle.std.specs.Prelude.{ℕ, ◌+◌, ◌*◌, ◌<◌, ◌≤◌, length};
ghost use Rattle.cbor.specs.Code.{each};
ghost use Rattle.record.specs.Reading.{queue};
ghost use Rattle.coding.specs.Image.{Allowed};
ghost use Rattle.image.specs.Element.{spaced};
ghost use Rattle.image.specs.Words.{CellsAt, NumbersAt, cells_of, numbers_of};
ghost use Rattle.answers.specs.Answer.{PutUpTo};
ghost use Rattle.listing.specs.Shown.{image_text, Shown};

use crate::line::Line;
use answers::answer::put_answer_line;
use cells::Cell;
use image::reading::decode;
use protocol::Refusal;
use words::extent::Extent;
use words::layout::{CELL, MOST_CELLS, MOST_DEVICES};

// The lines of n elements, from `from` on: the k-th stands in `words` at k times `stride`.
fn put_lines<T: Line>(out: &mut [u8], from: usize, words: &[u64], stride: usize, n: usize) -> usize
    requires in_words { NumbersAt words.now 0 stride n }
    requires ready { (k : ℕ) → k < n → T.Ready words.now (stride * k) }
    requires room { from + 34 * n ≤ length out.old }
    ensures { PutUpTo (34 * n) out.old from (each T.line (queue n (spaced T.stands words.now 0 stride))) out.new result }
{
    let mut at = from;
    for k in 0..n {
        at = T::put_line(out, at, T::get(words, stride * k));
    }
    at
}

// The lines of both.
fn put_image(out: &mut [u8], extent: Extent, words: &[u64], numbers: &[u64]) -> usize
    requires cells_at { CellsAt words.now 0 extent.cells }
    requires numbers_at { extent.devices ≤ length numbers.now }
    requires allowed { Allowed (cells_of words.now extent.cells) (numbers_of numbers.now extent.devices) }
    requires room { 34 * extent.cells + 34 * extent.devices ≤ length out.old }
    ensures { PutUpTo (34 * extent.cells + 34 * extent.devices) out.old 0 (image_text (cells_of words.now extent.cells) (numbers_of numbers.now extent.devices)) out.new result }
{
    let at = put_lines::<Cell>(out, 0, words, CELL, extent.cells);
    put_lines::<u64>(out, at, numbers, 1, extent.devices)
}

// The text of the image that the bytes are, or the line of their refusal; answers its length.
pub fn show(bytes: &[u8], out: &mut [u8; 4096]) -> usize
    ensures { Shown bytes.now out.old out.new result }
{
    let mut words = [0u64; CELL * MOST_CELLS];
    let mut numbers = [0u64; MOST_DEVICES];
    let Some(extent) = decode(bytes, &mut words, &mut numbers) else {
        return put_answer_line(out, 0, Err(Refusal::NoImage));
    };
    put_image(out, extent, &words, &numbers)
}
