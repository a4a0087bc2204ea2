// Records: lines that CR LF ends, fed a byte at a time. A CR or an LF alone is a byte of the line.

#![tactic(auto)]

ghost use Rattle.std.specs.Prelude.{◌≡◌, ◌≤◌, length};
ghost use Rattle.lines.specs.Lines.{ends_line};
ghost use Rattle.lines.specs.Held.{nothing, ended_of, fed_of, buffer_after, finish_of};

// The line that is not ended yet: how many bytes it has, at most 82, and the last of them, 0 where there is none.
#[derive(Clone, Copy, Debug, PartialEq, Eq)]
pub struct Unended {
    pub len: usize,
    pub last: u8,
}

#[derive(Clone, Copy, Debug, PartialEq, Eq)]
pub enum Fed {
    // The line goes on.
    More(Unended),
    // A line of so many bytes, which stand in the buffer.
    Line(usize),
    // A line of more than 80 bytes.
    Long,
}

// Nothing yet.
pub fn none() -> Unended
    ensures { result ≡ nothing }
{
    Unended { len: 0, last: 0 }
}

// A line that ended. No held line has 0 bytes there: its CR is one of them.
#[tactic(auto, unfolding(crate::specs::Held::ended_of))]
fn ended(len: usize) -> Fed
    ensures { result ≡ ended_of len }
{
    match len {
        1..=81 => Fed::Line(len - 1),
        _ => Fed::Long,
    }
}

#[tactic(auto, unfolding(crate::specs::Lines::ends_line))]
fn ends_line(last: u8, b: u8) -> bool
    ensures { result ≡ ends_line last b }
{
    last == b'\r' && b == b'\n'
}

// One byte more. The buffer holds the first 81 bytes of the line.
#[tactic(auto, unfolding(crate::specs::Held::fed_of, crate::specs::Held::more_of, crate::specs::Held::buffer_after))]
pub fn feed(line: &mut [u8], p: Unended, b: u8) -> Fed
    requires { 81 ≤ length line.old }
    ensures { (result ≡ fed_of p b) × (line.new ≡ buffer_after line.old p b) }
{
    if ends_line(p.last, b) {
        return ended(p.len);
    }
    if p.len < 81 {
        line[p.len] = b;
        return Fed::More(Unended {
            len: p.len + 1,
            last: b,
        });
    }
    Fed::More(Unended { len: 82, last: b })
}

// The input has ended: what is left is a line without its CR LF.
#[tactic(auto, unfolding(crate::specs::Held::finish_of))]
pub fn finish(p: Unended) -> Fed
    ensures { result ≡ finish_of p }
{
    match p.len {
        0 => Fed::More(p),
        1..=80 => Fed::Line(p.len),
        _ => Fed::Long,
    }
}
