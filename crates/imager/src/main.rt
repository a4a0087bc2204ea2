// The image tool: `imager read` prints the image that stands on standard input as text, `imager write` makes the image of such a text.
// Another word, or none, gets a line that says so.

#![tactic(auto)]

use answers::answer::put_answer_line;
use image::writing::LONGEST;
use imaging::compose::compose;
use imaging::show::show;
use protocol::Refusal;
use sheet::Answer;
use showing::read_full;
use std::env::Env;
use std::io;

// More bytes than the buffer holds are read up to there, and are no image: none has so many.
fn read_image(rt: &(impl Input + Print)) -> io::Result<()> {
    let mut bytes = [0u8; 4096];
    let n = read_full(&mut rt.reader(), &mut bytes)?;
    let mut out = [0u8; 4096];
    let k = show(&bytes[..n], &mut out);
    rt.write_all(&out[..k])
}

fn answer(rt: &impl Print, a: Result<Answer, Refusal>) -> io::Result<()> {
    let mut out = [0u8; 34];
    let k = put_answer_line(&mut out, 0, a);
    rt.write_all(&out[..k])
}

// A longer text than the buffer holds is the text of no image either.
fn write_image(rt: &(impl Input + Print)) -> io::Result<()> {
    let mut text = [0u8; 4096];
    let n = read_full(&mut rt.reader(), &mut text)?;
    let mut out = [0u8; LONGEST];
    let a = compose(&text[..n], &mut out);
    if let Ok(Answer::Length(k)) = a {
        let long = k as usize;
        rt.write_all(&out[..long])
    } else {
        answer(rt, a)
    }
}

fn main(rt: HostRuntime) -> io::Result<()> {
    let mut word = [0u8; 16];
    let n = rt.arg(1, &mut word).unwrap_or(0);
    match &word[..n] {
        b"read" => read_image(&rt),
        b"write" => write_image(&rt),
        _ => rt.write_all(b"imager read or imager write\r\n"),
    }
}
