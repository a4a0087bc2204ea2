// Pastes blocks that are good, empty and bad, in turn, to one table of two devices and four cells. A line for each: what it is, what the call
// answers, and each word that it changed, with the new value. Last come the cells that device 0 reads.

#![tactic(auto)]

ghost use Rattle.std.specs.Prelude.{◌≤◌};

use block::{Entry, block_of};
use cells::{Cell, Update};
use devices::calls::read;
use showing::{show_answer, show_changes};
use std::io;
use table::begin::start;
use words::layout::{RECORD, RECORDS};

// The need of two devices, and two words past it.
const ROOM: usize = RECORDS + RECORD * 2 + 2;

// Pastes the first k of the entries to device d.
fn paste(
    rt: &impl Print,
    what: &str,
    t: [u64; ROOM],
    d: u64,
    entries: [Entry; 4],
    k: usize,
) -> io::Result<[u64; ROOM]>
    requires { k ≤ 4 }
{
    let mut now = t;
    let a = block_of(&mut now, d, entries, k);
    print!(rt; "{what}: ")?;
    show_answer(rt, a)?;
    show_changes(rt, &now, &t)?;
    println!(rt; "")?;
    Ok(now)
}

fn entry(cell: u64, u: Update) -> Entry {
    Entry {
        cell: cell,
        update: u,
    }
}

// A good update of cell 0, for the places that a case does not use.
fn good() -> Entry {
    entry(0, Update::Add(1))
}

fn unbounded() -> f64 {
    1.0 / 0.0
}

fn show_read(rt: &impl Print, t: &[u64], cell: u64) -> io::Result<()> {
    print!(rt; "cell {cell}: ")?;
    show_answer(rt, read(t, 0, cell))?;
    println!(rt; "")
}

fn good_blocks(rt: &impl Print, t: [u64; ROOM]) -> io::Result<[u64; ROOM]> {
    let four = [
        entry(1, Update::Set(Cell::Count(7))),
        entry(1, Update::Add(2)),
        entry(3, Update::Set(Cell::Measure(1.5))),
        entry(0, Update::Add(-1)),
    ];
    let a = paste(rt, "four good updates", t, 0, four, 4)?;
    let b = paste(rt, "an empty block", a, 0, four, 0)?;
    let one = [entry(1, Update::Set(Cell::Blank)), good(), good(), good()];
    paste(rt, "one good update", b, 0, one, 1)
}

fn bad_blocks(rt: &impl Print, t: [u64; ROOM]) -> io::Result<[u64; ROOM]> {
    let x = unbounded();
    let past = entry(4, Update::Add(1));
    let far = entry(18446744073709551615, Update::Add(1));
    let infinite = entry(2, Update::Set(Cell::Measure(x)));
    let nothing = entry(2, Update::Set(Cell::Measure(x - x)));
    let both = entry(4, Update::Set(Cell::Measure(x)));
    let a = paste(
        rt,
        "the first is bad",
        t,
        0,
        [past, good(), good(), good()],
        4,
    )?;
    let b = paste(
        rt,
        "one in the middle is bad",
        a,
        0,
        [good(), good(), infinite, good()],
        4,
    )?;
    let c = paste(
        rt,
        "the last is bad",
        b,
        0,
        [good(), good(), good(), nothing],
        4,
    )?;
    let d = paste(rt, "two are bad", c, 0, [good(), infinite, good(), far], 4)?;
    let e = paste(
        rt,
        "two are bad, the other way",
        d,
        0,
        [good(), far, good(), infinite],
        4,
    )?;
    let f = paste(
        rt,
        "one is bad twice",
        e,
        0,
        [both, good(), good(), good()],
        1,
    )?;
    paste(
        rt,
        "the bad one is left out",
        f,
        1,
        [good(), past, past, past],
        1,
    )
}

fn refused_blocks(rt: &impl Print, t: [u64; ROOM]) -> io::Result<()> {
    let bad = entry(9, Update::Add(1));
    let all = [bad, bad, bad, bad];
    let a = paste(rt, "no such device", t, 2, all, 4)?;
    let b = paste(rt, "no such device, an empty block", a, 2, all, 0)?;
    let mut c = b;
    c[0] = 9;
    let d = paste(rt, "no table", c, 2, all, 4)?;
    paste(rt, "no table, an empty block", d, 0, all, 0)?;
    Ok(())
}

fn main(rt: HostRuntime) -> io::Result<()> {
    let mut t = [7u64; ROOM];
    let _ = start(&mut t, 2, 4);
    let a = good_blocks(&rt, t)?;
    let b = bad_blocks(&rt, a)?;
    refused_blocks(&rt, b)?;
    show_read(&rt, &b, 0)?;
    show_read(&rt, &b, 1)?;
    show_read(&rt, &b, 2)?;
    show_read(&rt, &b, 3)
}
