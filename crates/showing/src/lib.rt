// What programs share: a buffer read full; an answer, and the words that a call changed, printed.

#![tactic(auto)]

ghost use Rattle.std.specs.Prelude.{◌≡◌, ◌<◌, IfOk, length, take};
ghost use Rattle.std.specs.Io.KnownBytes.{Consumes, IsAtEnd};
ghost use Rattle.sheet.specs.Answer.{meaning};
ghost use Rattle.showing.specs.Done.{is_done};
ghost use Rattle.std.specs.Io.{ReadsAtMost};

use answers::answer::put_answer;
use sheet::Answer;
use sheet::refused::Refused;
use std::io;
use std::io::Read;

// Reads until buf is full or the input ends, and returns how many bytes it put at the start of buf.
pub fn read_full<R: Read>(input: &mut R, buf: &mut [u8]) -> io::Result<usize>
    ensures bound { ReadsAtMost result buf.new }
    // of an input whose bytes are known, these are the next ones, and where they are fewer than there is room for, the last
    ensures bytes { IfOk result (λ n. Consumes (R.remaining input.old) (R.remaining input.new) (take n buf.new)) }
    ensures end { IfOk result (λ n. n < length buf.new → IsAtEnd (R.remaining input.new)) }
{
    let mut done = 0;
    while done < buf.len() {
        let n = input.read(&mut buf[done..])?;
        if n == 0 {
            break;
        }
        done += n;
    }
    Ok(done)
}

// Writes to standard output.
pub fn write(rt: &impl Print, text: &[u8]) -> io::Result<()> {
    rt.write_all(text)
}

// The place of a block's first bad update, where the answer has one.
fn show_place<E: Refused>(rt: &impl Print, a: Result<Answer, E>) -> io::Result<()> {
    let Err(e) = a else {
        return Ok(());
    };
    let (_, Some(place)) = e.told() else {
        return Ok(());
    };
    print!(rt; " at {place}")
}

// Shows an answer as the step program does.
pub fn show_answer<E: Refused>(rt: &impl Print, a: Result<Answer, E>) -> io::Result<()> {
    let mut out = [0u8; 32];
    let k = put_answer(&mut out, 0, a);
    write(rt, &out[..k])?;
    show_place(rt, a)
}

// Whether a call was done.
pub fn is_done<E: Refused>(a: Result<Answer, E>) -> bool
    ensures { result ≡ is_done (E.meant a) }
{
    matches!(a, Ok(Answer::Done))
}

fn show_word(rt: &impl Print, i: usize, v: u64) -> io::Result<()> {
    print!(rt; " {i}={v}")
}

// Shows each word of t that is another in old, or that all were kept.
pub fn show_changes(rt: &impl Print, t: &[u64], old: &[u64]) -> io::Result<()> {
    let mut kept = true;
    for (i, word) in t.iter().enumerate() {
        if i < old.len() && *word != old[i] {
            show_word(rt, i, *word)?;
            kept = false;
        }
    }
    if kept {
        print!(rt; " kept")?;
    }
    Ok(())
}
