// Runs examples of encoded bytes: RFC 8949's published ones (appendix A), longer heads than needed, whole images. A line of input has the bytes in
// hex and a name. Its answer has the tokens that are read up to the end or to the first that is refused, the cell that stands at the front, and the
// image that the bytes are, opened and written again.

#![tactic(auto)]

ghost use Rattle.std.specs.Prelude.{◌≤◌, ◌<◌, length};

use cbor::token::Token;
use cells::Cell;
use image::opening::open_image;
use image::writing::write_image;
use sheet::Answer;
use showing::read_full;
use std::io;
use words::layout::{CELLS, DEVICES};

fn word(rt: &impl Print, name: &[u8], n: u64) -> io::Result<()> {
    rt.write_all(name)?;
    print!(rt; "{n:016x}")
}

fn number(rt: &impl Print, name: &[u8], n: u64) -> io::Result<()> {
    rt.write_all(name)?;
    rt.print(n)
}

fn show_token(rt: &impl Print, t: Token) -> io::Result<()> {
    match t {
        Token::Unsigned(a) => word(rt, b" unsigned,", a),
        Token::Negative(a) => word(rt, b" negative,", a),
        Token::Array(a) => word(rt, b" array,", a),
        Token::Null => rt.write_all(b" null"),
        Token::Float(b) => word(rt, b" float,", b),
    }
}

// The token at a place; answers the place after it, or the end.
fn step(rt: &impl Print, s: &[u8], at: usize) -> io::Result<usize> {
    let Some((t, next)) = cbor::token::read_token(s, at) else {
        rt.write_all(b" refused")?;
        return Ok(s.len());
    };
    show_token(rt, t)?;
    Ok(next)
}

// The tokens from the front on, 81 at the most.
fn show_tokens(rt: &impl Print, s: &[u8]) -> io::Result<()> {
    let mut at = step(rt, s, 0)?;
    for _ in 0..80 {
        if at < s.len() {
            at = step(rt, s, at)?;
        }
    }
    Ok(())
}

fn show_cell(rt: &impl Print, s: &[u8]) -> io::Result<()> {
    let Some((c, _)) = coding::cell::read_cell(s, 0) else {
        return rt.write_all(b" no cell");
    };
    match c {
        Cell::Blank => rt.write_all(b" blank"),
        Cell::Count(n) => word(rt, b" count,", cells::signed::bits_of_i64(n)),
        Cell::Measure(x) => {
            if cells::measured::is_finite(x) {
                word(rt, b" measure,", cells::measured::bits_of_f64(x))?;
            }
            Ok(())
        }
    }
}

// The image opened into a table, and written again.
fn show_image(rt: &impl Print, s: &[u8]) -> io::Result<()> {
    let mut t = [0u64; 29650];
    let Ok(Answer::Done) = open_image(&mut t, s) else {
        return rt.write_all(b" no image");
    };
    number(rt, b" cells,", t[CELLS])?;
    number(rt, b" devices,", t[DEVICES])?;
    let mut out = [0u8; 620];
    let Ok(Answer::Length(k)) = write_image(&t, &mut out) else {
        return Ok(());
    };
    number(rt, b" length,", k)?;
    if k <= 620 {
        let n = k as usize;
        if &out[..n] == s {
            rt.write_all(b" same")?;
        }
    }
    Ok(())
}

fn show(rt: &impl Print, name: &[u8], s: &[u8]) -> io::Result<()> {
    rt.write_all(name)?;
    rt.write_all(b":")?;
    show_tokens(rt, s)?;
    rt.write_all(b" /")?;
    show_cell(rt, s)?;
    rt.write_all(b" /")?;
    show_image(rt, s)?;
    rt.write_all(b"\n")
}

fn digit(b: u8) -> u8
    ensures { result < 16 }
{
    match b {
        b'0'..=b'9' => b - b'0',
        b'a'..=b'f' => b - b'a' + 10,
        _ => 0,
    }
}

// The bytes that hex digits write, as far as there is room; answers how many.
fn bytes_of(hex: &[u8], item: &mut [u8]) -> usize
    ensures { result ≤ length item.new }
{
    let n = item.len().min(hex.len() / 2);
    for (byte, pair) in item.iter_mut().zip(hex.chunks_exact(2)) {
        *byte = 16 * digit(pair[0]) + digit(pair[1]);
    }
    n
}

// The first place from `at` on where b stands, or the end.
fn find(s: &[u8], at: usize, b: u8) -> usize
    requires { at ≤ length s.now }
    ensures { (at ≤ result) × (result ≤ length s.now) }
{
    s[at..]
        .iter()
        .position(|x| *x == b)
        .map_or(s.len(), |k| at + k)
}

// One line; answers the place of the next.
fn line(rt: &impl Print, s: &[u8], at: usize) -> io::Result<usize>
    requires { at ≤ length s.now }
{
    let space = find(s, at, b' ');
    let end = find(s, space, b'\n');
    if end <= space {
        return Ok(s.len());
    }
    let mut item = [0u8; 128];
    let n = bytes_of(&s[at..space], &mut item);
    show(rt, &s[space + 1..end], &item[..n])?;
    Ok(end + 1)
}

fn lines(rt: &impl Print, s: &[u8]) -> io::Result<()> {
    let mut at = 0;
    for _ in 0..1000 {
        if at < s.len() {
            at = line(rt, s, at)?;
        }
    }
    Ok(())
}

fn main(rt: HostRuntime) -> io::Result<()> {
    let mut input = [0u8; 65536];
    let n = read_full(&mut rt.reader(), &mut input)?;
    lines(&rt, &input[..n])
}
