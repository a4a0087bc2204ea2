// The accessors of a place: the only code that knows how a cell lies in a sheet and a change in a joined change.
ghost use Rattle.std.specs.Prelude.{◌≡◌, true, ◌+◌, ◌*◌, ◌≤◌, length};
ghost use Rattle.words.specs.Layout.{PLACE};
ghost use Rattle.words.specs.Place.{place, words_at, Put};

use crate::layout::PLACE;
use cells::stored::Stored;

// The cell in place k of the sheet that starts at `at`, or the change in place k of the joined change there.
pub fn get<T: Stored>(t: &[u64], at: usize, k: usize) -> T
    requires k_in_bounds { at + PLACE * k + PLACE ≤ length t.now }
    requires k_value { words_at T.words_ok t.now (at + PLACE * k) ≡ true }
    ensures is { result ≡ words_at T.of_words t.now (at + PLACE * k) }
    ensures fits { T.finite result ≡ true }
{
    let o = at + PLACE * k;
    T::from_words(t[o], t[o + 1])
}

// Stores a cell or a change in place k of those from `at` on.
pub fn put<T: Stored>(t: &mut [u64], at: usize, k: usize, v: T)
    requires k_in_bounds { at + PLACE * k + PLACE ≤ length t.old }
    requires v_value { T.finite v ≡ true }
    ensures { Put (place T.of_words T.words_ok) t.old t.new (at + PLACE * k) v }
{
    let o = at + PLACE * k;
    t[o] = v.kind();
    t[o + 1] = v.payload();
}
