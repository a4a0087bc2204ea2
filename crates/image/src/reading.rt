// The image read: bytes into two lent buffers, one for the cells and one for the devices' numbers.
ghost use Rattle.std.specs.Prelude.{ℕ, ◌*◌, ◌<◌, ◌≤◌, length};
ghost use Rattle.words.specs.Layout.{CELL};
ghost use Rattle.record.specs.Reading.{queue};
ghost use Rattle.image.specs.Read.{PassedIs, ArrayReadIs, DecodedIs};

use crate::element::Element;
use cbor::major::Major;
use cbor::number::read_number;
use cells::Cell;
use words::extent::Extent;
use words::layout::{MOST_CELLS, MOST_DEVICES};

// n elements from `from` on, into the front of `words`; answers the place after them.
fn read_elements<T: Element>(s: &[u8], from: usize, n: usize, words: &mut [u64]) -> Option<usize>
    requires { (from ≤ length s.now) × (T.width * n ≤ length words.old) }
    ensures { PassedIs T.code T.Allowed (queue n (T.held words.new)) ((k : ℕ) → k < n → T.Sound words.new k) n s.now from result }
{
    let mut at = from;
    for i in 0..n {
        let (x, next) = T::read(s, at)?;
        T::put(words, i, x);
        at = next;
    }
    Some(at)
}

// The array of 1 to `most` elements: how many, and the place after it.
fn read_array<T: Element>(
    s: &[u8],
    at: usize,
    most: usize,
    words: &mut [u64],
) -> Option<(usize, usize)>
    requires { T.width * most ≤ length words.old }
    ensures { ArrayReadIs T.code T.Allowed (λ n. queue n (T.held words.new)) (λ n. (k : ℕ) → k < n → T.Sound words.new k) 1 most s.now at result }
{
    let (count, from) = read_number(s, at, Major::Array, 1, most as u64)?;
    let n = count as usize;
    let next = read_elements::<T>(s, from, n, words)?;
    Some((n, next))
}

// The whole image, into the fronts of two buffers that have room for any.
pub fn decode(s: &[u8], words: &mut [u64], numbers: &mut [u64]) -> Option<Extent>
    requires { (CELL * 64 ≤ length words.old) × (8 ≤ length numbers.old) }
    ensures { DecodedIs s.now words.new numbers.new result }
{
    let (_, at) = read_number(s, 0, Major::Array, 2, 2)?;
    let (cells, next) = read_array::<Cell>(s, at, MOST_CELLS, words)?;
    let (devices, end) = read_array::<u64>(s, next, MOST_DEVICES, numbers)?;
    if end == s.len() {
        Some(Extent { devices, cells })
    } else {
        None
    }
}
