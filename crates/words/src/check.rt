// Whether the n places of a sheet or a joined change have valid words, and whether a joined change holds no update.
ghost use Rattle.std.specs.Prelude.{◌≡◌, ℕ, ◌+◌, ◌*◌, ◌≤◌, ◌<◌, length};
ghost use Rattle.words.specs.Layout.{PLACE};
ghost use Rattle.words.specs.Place.{place, change_at, change_place, Valid, Decides};
ghost use Rattle.cells.specs.declared.Change.TheVariants.{Nothing};

use crate::layout::PLACE;
use crate::place::get;
use cells::Change;
use cells::stored::Stored;

// Whether the n cells or changes from `at` on have valid words.
pub fn are_valid<T: Stored>(t: &[u64], at: usize, n: usize) -> bool
    requires { at + PLACE * n ≤ length t.now }
    ensures { Decides result (Valid (place T.of_words T.words_ok) t.now at n) }
{
    for i in 0..n {
        let o = at + PLACE * i;
        if !T::are_words(t[o], t[o + 1]) {
            return false;
        }
    }
    true
}

// Whether the n changes from `at` on are all nothing.
pub fn are_nothing(t: &[u64], at: usize, n: usize) -> bool
    requires { (at + PLACE * n ≤ length t.now) × Valid change_place t.now at n }
    ensures { Decides result ((k : ℕ) → k < n → change_at t.now (at + PLACE * k) ≡ Nothing) }
{
    for i in 0..n {
        if get::<Change>(t, at, i) != Change::Nothing {
            return false;
        }
    }
    true
}
