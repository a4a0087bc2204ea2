// Loops over n places that read another slice: between a device's record, the server's sheet and words that a call keeps for itself.
ghost use Rattle.std.specs.Prelude.{◌≡◌, true, ◌+◌, ◌*◌, ◌≤◌, length, get_or};
ghost use Rattle.words.specs.Layout.{PLACE};
ghost use Rattle.words.specs.Place.{place, words_at, change_place, change_at, change_ok, Put, Filled, Numbers, Valid, Across, later_number};

use crate::place::{get, put};
use crate::run::later_number;
use cells::Change;
use cells::joining::Changed;
use cells::stored::Stored;

// Copies the n cells or changes of s from `from` on to `to` on.
pub fn copy_from<T: Stored>(t: &mut [u64], to: usize, s: &[u64], from: usize, n: usize)
    requires { Across (place T.of_words T.words_ok) (place T.of_words T.words_ok) t.old s.now to from n }
    ensures { Filled (place T.of_words T.words_ok) t.old t.new to n (λ k. words_at T.of_words s.now (from + PLACE * k)) }
{
    for i in 0..n {
        let v: T = get(s, from, i);
        put(t, to, i, v);
    }
}

// Makes the change of s in place i from `from` on to the cell or change in place i from `to` on.
fn change_one_from<T: Changed>(t: &mut [u64], to: usize, s: &[u64], from: usize, i: usize)
    requires to_in_bounds { to + PLACE * i + PLACE ≤ length t.old }
    requires to_value { words_at T.words_ok t.old (to + PLACE * i) ≡ true }
    requires from_in_bounds { from + PLACE * i + PLACE ≤ length s.now }
    requires from_value { change_ok s.now (from + PLACE * i) ≡ true }
    ensures { Put (place T.of_words T.words_ok) t.old t.new (to + PLACE * i) (T.after (words_at T.of_words t.old (to + PLACE * i)) (change_at s.now (from + PLACE * i))) }
{
    let v: T = get(t, to, i);
    let d: Change = get(s, from, i);
    put(t, to, i, v.changed(d));
}

// Makes the n changes of s from `from` on to the cells or changes from `to` on, in place.
pub fn change_from<T: Changed>(t: &mut [u64], to: usize, s: &[u64], from: usize, n: usize)
    requires { Across (place T.of_words T.words_ok) change_place t.old s.now to from n × Valid (place T.of_words T.words_ok) t.old to n }
    ensures { Filled (place T.of_words T.words_ok) t.old t.new to n (λ k. T.after (words_at T.of_words t.old (to + PLACE * k)) (change_at s.now (from + PLACE * k))) }
{
    for i in 0..n {
        change_one_from::<T>(t, to, s, from, i);
    }
}

// Copies the n numbers of s from `from` on to `to` on.
pub fn copy_numbers_from(t: &mut [u64], to: usize, s: &[u64], from: usize, n: usize)
    requires { (to + n ≤ length t.old) × (from + n ≤ length s.now) }
    ensures { Numbers t.old t.new to n (λ k. get_or s.now (from + k) 0) }
{
    t[to..to + n].copy_from_slice(&s[from..from + n]);
}

// Takes the n numbers of s from `from` on over to `to` on, where they are given: 0 gives none.
pub fn take_numbers_from(t: &mut [u64], to: usize, s: &[u64], from: usize, n: usize)
    requires { (to + n ≤ length t.old) × (from + n ≤ length s.now) }
    ensures { Numbers t.old t.new to n (λ k. later_number (get_or t.old (to + k) 0) (get_or s.now (from + k) 0)) }
{
    for i in 0..n {
        t[to + i] = later_number(t[to + i], s[from + i]);
    }
}
