// The step program: reads steps from standard input and writes an answer to each to standard output.

#![tactic(auto)]

use answering::line::WORDS;
use lines::{Unended, none};
use std::io;
use std::io::Read;
use stepping::feed::{ANSWERS, CHUNK, feed_chunk, finish_input};

// Reads once, and writes the answers out before the next read: what is held of the line that is not ended, or none at the end of the input.
fn read_some(
    rt: &(impl Input + Print),
    t: &mut [u64],
    line: &mut [u8; 81],
    held: Unended,
) -> io::Result<Option<Unended>> {
    let mut chunk = [0u8; CHUNK];
    let n = rt.reader().read(&mut chunk)?;
    if n == 0 {
        return Ok(None);
    }
    let mut out = [0u8; ANSWERS];
    let run = feed_chunk(t, line, held, &chunk[..n], &mut out);
    rt.write_all(&out[..run.at])?;
    Ok(Some(run.unended))
}

// Reads to the end of the input. A proved loop has to end, so the reads are counted, up to a number that no run reaches.
fn read_all(rt: &(impl Input + Print), t: &mut [u64], line: &mut [u8; 81]) -> io::Result<Unended> {
    let mut held = none();
    for _ in 0..u64::MAX {
        let Some(next) = read_some(rt, t, line, held)? else {
            return Ok(held);
        };
        held = next;
    }
    Ok(held)
}

// The answer to a last line that no CR LF ended.
fn answer_rest(rt: &impl Print, t: &mut [u64], line: &[u8; 81], p: Unended) -> io::Result<()> {
    let mut out = [0u8; ANSWERS];
    let at = finish_input(t, line, p, &mut out);
    rt.write_all(&out[..at])
}

fn main(rt: HostRuntime) -> io::Result<()> {
    let mut table = [0u64; WORDS];
    let mut line = [0u8; 81];
    let p = read_all(&rt, &mut table, &mut line)?;
    answer_rest(&rt, &mut table, &line, p)
}
