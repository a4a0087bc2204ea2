// The elements of an image's two arrays: cells, and devices' numbers.
ghost use Rattle.std.specs.Prelude.{◌≡◌, true, ℕ, List, ◌+◌, ◌*◌, ◌≤◌, length, get_or};
ghost use Rattle.cbor.specs.Bytes.{Wrote};
ghost use Rattle.cbor.specs.Code.{Free, ReadIs};
ghost use Rattle.cbor.specs.Head.{head_of};
ghost use Rattle.words.specs.Layout.{CELL};
ghost use Rattle.words.specs.Place.{cell_at, cell_ok};
ghost use Rattle.coding.specs.Image.{NumberAllowed};
ghost use Rattle.coding.specs.Item.{cell_bytes, CellAllowed};
ghost use Rattle.coding.proofs.Meaning.{cell_free, number_free};
ghost use Rattle.image.specs.Element.{Appended, CellReady, NumberReady};
ghost use Rattle.image.specs.Words.{cell_in};

use cbor::head::write_head;
use cbor::major::Major;
use cbor::number::read_number;
use cells::Cell;
use coding::cell::{read_cell, write_cell};
use words::layout::MOST_PUSHES;
use words::place::{get, put};

// One kind of element: its code in the bytes of an image, and how it lies in lent words.
pub trait Element: Copy {
    ghost code: { Self → List ℕ };

    ghost Allowed: { Self → Type 0 };

    // The element whose first word is at a place, and whether one is ready to be read there.
    ghost stands: { List ℕ → ℕ → Self };

    ghost Ready: { List ℕ → ℕ → Type 0 };

    // How many words one takes in a buffer of them, the k-th there, and whether its words are sound.
    ghost width: { ℕ };

    ghost held: { List ℕ → ℕ → Self };

    ghost Sound: { List ℕ → ℕ → Type 0 };

    // The element whose code stands at a place, and the place after it.
    fn read(s: &[u8], at: usize) -> Option<(Self, usize)>
        ensures { ReadIs code Allowed s.now at result };

    fn write(out: &mut [u8], at: usize, x: Self) -> usize
        requires { Allowed x × (at + length (code x) ≤ length out.old) }
        ensures { Wrote out.old at (code x) out.new result };

    fn get(words: &[u64], place: usize) -> Self
        requires { Ready words.now place }
        ensures { result ≡ stands words.now place };

    // Stores x behind the k elements that a buffer holds.
    fn put(words: &mut [u64], k: usize, x: Self)
        requires { Allowed x × (width * (k + 1) ≤ length words.old) }
        ensures { Appended width held Sound words.old words.new k x };

    ghost free: { Free code Allowed };

    ghost allowed: { (words : List ℕ) (p : ℕ) → Ready words p → Allowed (stands words p) };
}

impl Element for Cell {
    ghost code = { cell_bytes };

    ghost Allowed = { CellAllowed };

    ghost stands = { cell_at };

    ghost Ready = { CellReady };

    ghost width = { CELL };

    ghost held = { λ words. cell_in words 0 };

    ghost Sound = { λ words k. cell_ok words (0 + CELL * k) ≡ true };

    ghost free = { cell_free };

    ghost allowed = { λ words p r. r.allowed };

    fn read(s: &[u8], at: usize) -> Option<(Cell, usize)> {
        read_cell(s, at)
    }

    fn write(out: &mut [u8], at: usize, x: Cell) -> usize {
        write_cell(out, at, x)
    }

    fn get(words: &[u64], place: usize) -> Cell {
        get::<Cell>(words, place, 0)
    }

    fn put(words: &mut [u64], k: usize, x: Cell) {
        put(words, 0, k, x);
    }
}

impl Element for u64 {
    ghost code = { head_of 0 };

    ghost Allowed = { NumberAllowed };

    ghost stands = { λ words p. get_or words p 0 };

    ghost Ready = { NumberReady };

    ghost width = { 1 };

    ghost held = { λ words k. get_or words k 0 };

    ghost Sound = { λ words k. Unit {0} };

    ghost free = { number_free };

    ghost allowed = { λ words p r. r.allowed };

    fn read(s: &[u8], at: usize) -> Option<(u64, usize)> {
        read_number(s, at, Major::Unsigned, 0, MOST_PUSHES)
    }

    fn write(out: &mut [u8], at: usize, x: u64) -> usize {
        write_head(out, at, Major::Unsigned, x)
    }

    fn get(words: &[u64], place: usize) -> u64 {
        words[place]
    }

    fn put(words: &mut [u64], k: usize, x: u64) {
        words[k] = x;
    }
}
