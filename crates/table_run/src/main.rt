// Runs is_table and push on damaged tables and on tables that no run reaches. A line of input is a case: a name, a colon, and then numbers, a space
// before each: the word that fills the room, how many words are lent to start, its devices and cells, how many words are lent to push, the
// device that pushes, and the pokes, an index and a value each. The answer has the name, whether the contents are a table, what push
// answers, and each word that it changed, with the new value.

#![tactic(auto)]

use devices::calls::push;
use showing::{is_done, read_full, show_answer, show_changes, write};
use std::io;
use table::begin::start;
use table::check::is_table;
use words::layout::{RECORD, RECORDS};

// Enough for nine devices, and some words past them.
const ROOM: usize = RECORDS + RECORD * 9 + 60;

// Which part of a line is being read. The two of a poke take turns.
#[derive(Clone, Copy, Debug, PartialEq, Eq)]
enum Part {
    Name,
    FirstSpace,
    Fill,
    LentToStart,
    Devices,
    Cells,
    LentToPush,
    Device,
    PokeIndex,
    PokeValue,
}

// What is read of a line: the part that is being read, the number so far, and the numbers that are kept.
#[derive(Clone, Copy)]
struct Line {
    part: Part,
    number: u64,
    lent: u64,
    devices: u64,
    device: u64,
    index: u64,
    started: bool,
}

fn begun() -> Line {
    Line {
        part: Part::Name,
        number: 0,
        lent: 0,
        devices: 0,
        device: 0,
        index: 0,
        started: false,
    }
}

fn poke(t: &mut [u64], i: usize, v: u64) {
    if i < t.len() {
        t[i] = v;
    }
}

// Starts a table in the first words of t, and answers whether it did.
fn started(
    rt: &impl Print,
    t: &mut [u64],
    lent: usize,
    devices: u64,
    cells: u64,
) -> io::Result<bool> {
    if lent > t.len() {
        return Ok(false);
    }
    let a = start(&mut t[..lent], devices, cells);
    if is_done(a) {
        return Ok(true);
    }
    print!(rt; " start ")?;
    show_answer(rt, a)?;
    Ok(false)
}

fn show_verdict(rt: &impl Print, b: bool) -> io::Result<()> {
    let said = if b { "table" } else { "no table" };
    print!(rt; " {said} ")
}

// Pushes on the first words of t.
fn pushed(rt: &impl Print, t: &mut [u64], lent: usize, device: u64) -> io::Result<()> {
    if lent <= t.len() {
        show_verdict(rt, is_table(&t[..lent]))?;
        show_answer(rt, push(&mut t[..lent], device))?;
    }
    Ok(())
}

// What the case changed, and the end of its line.
fn end(rt: &impl Print, t: &[u64], old: &[u64]) -> io::Result<()> {
    show_changes(rt, t, old)?;
    println!(rt; "")
}

// The line is read: runs its case.
fn run(rt: &impl Print, line: Line, t: &mut [u64; ROOM], old: &mut [u64; ROOM]) -> io::Result<()> {
    if !line.started {
        return end(rt, t, old);
    }
    *old = *t;
    let lent = line.lent as usize;
    pushed(rt, t, lent, line.device)?;
    end(rt, t, old)
}

// The part after a part.
fn after(part: Part) -> Part {
    match part {
        Part::Name => Part::FirstSpace,
        Part::FirstSpace => Part::Fill,
        Part::Fill => Part::LentToStart,
        Part::LentToStart => Part::Devices,
        Part::Devices => Part::Cells,
        Part::Cells => Part::LentToPush,
        Part::LentToPush => Part::Device,
        Part::Device | Part::PokeValue => Part::PokeIndex,
        Part::PokeIndex => Part::PokeValue,
    }
}

// The number read is done with: it is kept for later, or it is used.
fn take(
    rt: &impl Print,
    line: Line,
    t: &mut [u64; ROOM],
    old: &mut [u64; ROOM],
) -> io::Result<Line> {
    let n = line.number;
    let part = line.part;
    let mut next = line;
    next.number = 0;
    next.part = after(part);
    match part {
        Part::Name | Part::FirstSpace => {}
        Part::Fill => {
            t.fill(n);
            old.fill(n);
        }
        Part::LentToStart | Part::LentToPush => next.lent = n,
        Part::Devices => next.devices = n,
        Part::Cells => next.started = started(rt, t, line.lent as usize, line.devices, n)?,
        Part::Device => next.device = n,
        Part::PokeIndex => next.index = n,
        Part::PokeValue => poke(t, line.index as usize, n),
    }
    Ok(next)
}

// n with one more decimal digit; a byte that is none, or one too many, changes nothing.
fn digit(n: u64, b: u8) -> u64 {
    if !b.is_ascii_digit() {
        return n;
    }
    n.checked_mul(10)
        .and_then(|tens| tens.checked_add(u64::from(b - b'0')))
        .unwrap_or(n)
}

// A byte of the name, which ends at its colon.
fn name(rt: &impl Print, line: Line, b: u8) -> io::Result<Line> {
    let text = [b; 1];
    write(rt, &text)?;
    let mut next = line;
    if b == b':' {
        next.part = Part::FirstSpace;
    }
    Ok(next)
}

// The next byte of the input.
fn byte(
    rt: &impl Print,
    line: Line,
    b: u8,
    t: &mut [u64; ROOM],
    old: &mut [u64; ROOM],
) -> io::Result<Line> {
    if line.part == Part::Name {
        return name(rt, line, b);
    }
    if b == b' ' {
        return take(rt, line, t, old);
    }
    if b == b'\n' {
        let last = take(rt, line, t, old)?;
        run(rt, last, t, old)?;
        return Ok(begun());
    }
    let mut next = line;
    next.number = digit(line.number, b);
    Ok(next)
}

fn run_all(
    rt: &impl Print,
    text: &[u8],
    t: &mut [u64; ROOM],
    old: &mut [u64; ROOM],
) -> io::Result<()> {
    let mut line = begun();
    for b in text {
        line = byte(rt, line, *b, t, old)?;
    }
    Ok(())
}

fn main(rt: HostRuntime) -> io::Result<()> {
    let mut text = [0u8; 65536];
    let n = read_full(&mut rt.reader(), &mut text)?;
    let mut t = [0; ROOM];
    let mut old = [0; ROOM];
    run_all(&rt, &text[..n], &mut t, &mut old)
}
