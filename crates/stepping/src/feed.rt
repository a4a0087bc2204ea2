// The answers to the bytes of an input, chunk by chunk.
ghost use Rattle.std.specs.Prelude.{◌≡◌, ◌+◌, ◌≤◌, length, take};
ghost use Rattle.stepping.specs.Bytes.{CHUNK, standing, held_by, Within, PutTold, PutByte, ChunkFed, Finished};

use answering::line::answer;
use answers::answer::put_answer_line;
use lines::{Fed, Unended, feed, finish, none};
use protocol::Refusal;
use sheet::Answer;

// The most bytes of a chunk that are fed, and room for an answer of 34 bytes to each.
pub const CHUNK: usize = 4096;

pub const ANSWERS: usize = 34 * CHUNK;

// What is held of the unended line, and how many bytes stand in the output buffer.
#[derive(Clone, Copy, Debug, PartialEq, Eq)]
pub struct Run {
    pub unended: Unended,
    pub at: usize,
}

// What is held after a byte: nothing where it ended a line.
fn held_by(fed: Fed) -> Unended
    ensures { result ≡ held_by fed }
{
    match fed {
        Fed::More(p) => p,
        Fed::Line(_) | Fed::Long => none(),
    }
}

// Puts the answer to a line that has ended, if one has.
fn put_told(t: &mut [u64], line: &[u8], fed: Fed, out: &mut [u8], at: usize) -> usize
    requires { Within fed line.now × (at + 34 ≤ length out.old) }
    ensures { PutTold fed line.now t.old t.new out.old at out.new result }
{
    match fed {
        Fed::More(_) => at,
        Fed::Line(n) => {
            let a = answer(t, &line[..n]);
            put_answer_line(out, at, a)
        }
        Fed::Long => put_answer_line(out, at, Err(Refusal::NoStep)),
    }
}

// One byte more.
fn feed_byte(t: &mut [u64], line: &mut [u8], run: Run, b: u8, out: &mut [u8]) -> Run
    requires { (81 ≤ length line.old) × (run.at + 34 ≤ length out.old) }
    ensures { PutByte (standing line.old run.unended t.old) b (standing line.new result.unended t.new) out.old run.at out.new result.at }
{
    let fed = feed(line, run.unended, b);
    let next = put_told(t, line, fed, out, run.at);
    let held = held_by(fed);
    Run {
        unended: held,
        at: next,
    }
}

// Feeds the first 4,096 bytes of a chunk. The line buffer holds the line that was not ended before it; the answers stand at the front of the output buffer.
pub fn feed_chunk(
    t: &mut [u64],
    line: &mut [u8; 81],
    p: Unended,
    chunk: &[u8],
    out: &mut [u8; ANSWERS],
) -> Run
    ensures { ChunkFed (standing line.old p t.old) (take CHUNK chunk.now) out.old out.new result.at (standing line.new result.unended t.new) }
{
    let n = chunk.len().min(CHUNK);
    let mut run = Run { unended: p, at: 0 };
    for b in &chunk[..n] {
        run = feed_byte(t, line, run, *b, out);
    }
    run
}

// The input has ended: the answer to a line that no CR LF ended, if there is one. Answers how many bytes stand in the output buffer.
pub fn finish_input(t: &mut [u64], line: &[u8; 81], p: Unended, out: &mut [u8; ANSWERS]) -> usize
    ensures { Finished (standing line.now p t.old) out.old out.new result t.new }
{
    put_told(t, line, finish(p), out, 0)
}
