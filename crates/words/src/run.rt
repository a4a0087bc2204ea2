// Loops over the n places of a sheet or a joined change: n is the number of cells in use, never the room.
ghost use Rattle.std.specs.Prelude.{◌≡◌, true, ◌+◌, ◌*◌, ◌≤◌, length, get_or};
ghost use Rattle.words.specs.Layout.{PLACE};
ghost use Rattle.words.specs.Place.{place, words_at, change_place, change_at, change_ok, Put, Filled, Valid, Apart, Beside, Numbers, later_number};

use crate::place::{get, put};
use cells::Change;
use cells::joining::Changed;
use cells::stored::Stored;

// Makes each of the n places from `at` on v.
pub fn fill<T: Stored>(t: &mut [u64], at: usize, n: usize, v: T)
    requires fits { at + PLACE * n ≤ length t.old }
    requires v_value { T.finite v ≡ true }
    ensures { Filled (place T.of_words T.words_ok) t.old t.new at n (λ k. v) }
{
    for i in 0..n {
        put(t, at, i, v);
    }
}

// Copies the n cells or changes from `from` on to `to` on.
pub fn copy<T: Stored>(t: &mut [u64], from: usize, to: usize, n: usize)
    requires { Beside (place T.of_words T.words_ok) (place T.of_words T.words_ok) t.old to from n }
    ensures { Filled (place T.of_words T.words_ok) t.old t.new to n (λ k. words_at T.of_words t.old (from + PLACE * k)) }
{
    for i in 0..n {
        let v: T = get(t, from, i);
        put(t, to, i, v);
    }
}

// Makes the change in place i from `from` on to the cell or change in place i from `to` on.
fn change_one<T: Changed>(t: &mut [u64], to: usize, from: usize, i: usize)
    requires to_in_bounds { to + PLACE * i + PLACE ≤ length t.old }
    requires to_value { words_at T.words_ok t.old (to + PLACE * i) ≡ true }
    requires from_in_bounds { from + PLACE * i + PLACE ≤ length t.old }
    requires from_value { change_ok t.old (from + PLACE * i) ≡ true }
    ensures { Put (place T.of_words T.words_ok) t.old t.new (to + PLACE * i) (T.after (words_at T.of_words t.old (to + PLACE * i)) (change_at t.old (from + PLACE * i))) }
{
    let v: T = get(t, to, i);
    let d: Change = get(t, from, i);
    put(t, to, i, v.changed(d));
}

// Makes the n changes from `from` on to the cells or changes from `to` on, in place.
pub fn change<T: Changed>(t: &mut [u64], to: usize, from: usize, n: usize)
    requires { Beside (place T.of_words T.words_ok) change_place t.old to from n × Valid (place T.of_words T.words_ok) t.old to n }
    ensures { Filled (place T.of_words T.words_ok) t.old t.new to n (λ k. T.after (words_at T.of_words t.old (to + PLACE * k)) (change_at t.old (from + PLACE * k))) }
{
    for i in 0..n {
        change_one::<T>(t, to, from, i);
    }
}

// Copies the n numbers from `from` on to `to` on.
pub fn copy_numbers(t: &mut [u64], from: usize, to: usize, n: usize)
    requires { (from + n ≤ length t.old) × (to + n ≤ length t.old) × Apart to n from n }
    ensures { Numbers t.old t.new to n (λ k. get_or t.old (from + k) 0) }
{
    t.copy_within(from..from + n, to);
}

// Makes the n numbers from `at` on 0.
pub fn clear_numbers(t: &mut [u64], at: usize, n: usize)
    requires { at + n ≤ length t.old }
    ensures { Numbers t.old t.new at n (λ k. 0) }
{
    t[at..at + n].fill(0);
}

// The later of two numbers, where it is given.
pub fn later_number(old: u64, new: u64) -> u64
    ensures { result ≡ later_number old new }
{
    if new == 0 { old } else { new }
}

// Takes the n numbers from `from` on over to `to` on, where they are given: 0 gives none.
pub fn take_numbers(t: &mut [u64], to: usize, from: usize, n: usize)
    requires { (from + n ≤ length t.old) × (to + n ≤ length t.old) × Apart to n from n }
    ensures { Numbers t.old t.new to n (λ k. later_number (get_or t.old (to + k) 0) (get_or t.old (from + k) 0)) }
{
    for i in 0..n {
        t[to + i] = later_number(t[to + i], t[from + i]);
    }
}
