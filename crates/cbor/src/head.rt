// Heads: an initial byte, and the bytes of its argument where the five low bits do not hold it.
ghost use Rattle.std.specs.Prelude.{◌≡◌, ◌+◌, ◌≤◌, length};
ghost use Rattle.cbor.specs.Bytes.{Wrote};
ghost use Rattle.cbor.specs.Head.{info_of, width_of, head_of, ArgumentIs};
ghost use Rattle.cbor.specs.Major.{number_of};

use crate::bytes::{read_high_first, write_high_first};
use crate::major::{Major, number_of};

// The five bits of the shortest head with argument a.
#[tactic(auto, unfolding(crate::specs::Head::info_of))]
fn info_of(a: u64) -> u8
    ensures { result ≡ info_of a }
{
    match a {
        0..=23 => a as u8,
        24..=255 => 24,
        256..=65535 => 25,
        65536..=4294967295 => 26,
        _ => 27,
    }
}

// How many bytes follow an initial byte with these five bits.
#[tactic(auto, unfolding(crate::specs::Head::width_of))]
fn width_of(info: u8) -> usize
    ensures { result ≡ width_of info }
{
    match info {
        0..=23 => 0,
        24 => 1,
        25 => 2,
        26 => 4,
        _ => 8,
    }
}

// The shortest head of a major type with an argument.
pub fn write_head(out: &mut [u8], at: usize, major: Major, argument: u64) -> usize
    requires { at + length (head_of (number_of major) argument) ≤ length out.old }
    ensures { Wrote out.old at (head_of (number_of major) argument) out.new result }
{
    let info = info_of(argument);
    let n = width_of(info);
    out[at] = 32 * number_of(major) + info;
    write_high_first(out, at + 1, n, argument);
    at + 1 + n
}

// The argument that the five bits `info` lead, with its bytes from `at` on, and the place after it; it must need them all.
pub fn read_argument(s: &[u8], at: usize, info: u8) -> Option<(u64, usize)>
    requires { (at ≤ length s.now) × (info ≤ 27) }
    ensures { ArgumentIs s.now at info result }
{
    if info < 24 {
        return Some((u64::from(info), at));
    }
    let n = width_of(info);
    if s.len() - at < n {
        return None;
    }
    let a = read_high_first(s, at, n);
    let least = info_of(a);
    if least == info {
        Some((a, at + n))
    } else {
        None
    }
}
