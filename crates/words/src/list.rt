// A word of a list of any length.
ghost use Rattle.std.specs.Prelude.{◌≡◌, get_or};

// The word in place i, 0 past the end.
pub fn word_at(list: &[u64], i: usize) -> u64
    ensures { result ≡ get_or list.now i 0 }
{
    list.get(i).copied().unwrap_or(0)
}
