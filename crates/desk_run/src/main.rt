// Runs the calls on the ends of their ranges and prints what they answer, a line each: what was done, then the kind and the payload.

#![tactic(auto)]

use crate::runs::runs;
use cells::joining::{add_to, apply, join};
use cells::measured::{bits_of_f64, finite_bits, is_finite};
use cells::signed::{bits_of_i64, i64_of_bits};
use cells::stored::Stored;
use cells::{Cell, Change};
use std::io;

mod runs;

fn word(rt: &impl Print, what: &str, n: u64) -> io::Result<()> {
    println!(rt; "{what}: {n:016x}")
}

fn verdict(rt: &impl Print, what: &str, b: bool) -> io::Result<()> {
    let said = if b { "yes" } else { "no" };
    println!(rt; "{what}: {said}")
}

// A cell by its kind and its payload; a measured number that is not finite has no word.
fn show(rt: &impl Print, what: &str, c: Cell) -> io::Result<()> {
    print!(rt; "{what}: kind {:x}", c.kind())?;
    match c {
        Cell::Blank => word(rt, "", 0),
        Cell::Count(n) => word(rt, "", bits_of_i64(n)),
        Cell::Measure(x) => {
            if is_finite(x) {
                word(rt, "", bits_of_f64(x))
            } else {
                println!(rt; ": not finite")
            }
        }
    }
}

fn sums(rt: &impl Print) -> io::Result<()> {
    show(rt, "blank, add 0", add_to(Cell::Blank, 0))?;
    show(
        rt,
        "9223372036854775807, add 1",
        add_to(Cell::Count(9223372036854775807), 1),
    )?;
    show(
        rt,
        "-9223372036854775808, add -1",
        add_to(Cell::Count(-9223372036854775808), -1),
    )?;
    show(rt, "measured 1.5, add 2", add_to(Cell::Measure(1.5), 2))?;
    show(
        rt,
        "count 4, add 5 joined with add -5",
        apply(Cell::Count(4), join(Change::Add(5), Change::Add(-5))),
    )?;
    show(
        rt,
        "count 4, add 4 joined with set blank",
        apply(
            Cell::Count(4),
            join(Change::Add(4), Change::Set(Cell::Blank)),
        ),
    )?;
    show(
        rt,
        "blank, set count 7 joined with add 2",
        apply(
            Cell::Blank,
            join(Change::Set(Cell::Count(7)), Change::Add(2)),
        ),
    )
}

fn words(rt: &impl Print) -> io::Result<()> {
    word(
        rt,
        "word of -9223372036854775808",
        bits_of_i64(-9223372036854775808),
    )?;
    word(rt, "word of -1", bits_of_i64(-1))?;
    word(
        rt,
        "word of 9223372036854775807",
        bits_of_i64(9223372036854775807),
    )?;
    show(
        rt,
        "count of 8000000000000000",
        Cell::Count(i64_of_bits(0x8000_0000_0000_0000)),
    )?;
    show(rt, "infinity", Cell::Measure(1.0 / 0.0))?;
    show(rt, "minus infinity", Cell::Measure(-1.0 / 0.0))?;
    show(rt, "not a number", Cell::Measure(0.0 / 0.0))?;
    show(rt, "minus zero", Cell::Measure(-0.0))
}

fn tests(rt: &impl Print) -> io::Result<()> {
    verdict(
        rt,
        "largest measured number is finite",
        finite_bits(0x7fef_ffff_ffff_ffff),
    )?;
    verdict(rt, "infinity is finite", finite_bits(0x7ff0_0000_0000_0000))?;
    verdict(
        rt,
        "a quiet NaN is finite",
        finite_bits(0xfff8_0000_0000_0000),
    )?;
    verdict(
        rt,
        "smallest below zero is finite",
        finite_bits(0x8000_0000_0000_0001),
    )?;
    verdict(
        rt,
        "a set of infinity is a change",
        Change::are_words(3, 0x7ff0_0000_0000_0000),
    )?;
    verdict(
        rt,
        "add -1 is a change",
        Change::are_words(4, 0xffff_ffff_ffff_ffff),
    )?;
    verdict(rt, "kind 5 is a change", Change::are_words(5, 0))?;
    verdict(
        rt,
        "a set of blank with payload 1 is a change",
        Change::are_words(1, 1),
    )
}

fn main(rt: HostRuntime) -> io::Result<()> {
    sums(&rt)?;
    words(&rt)?;
    tests(&rt)?;
    runs(&rt)
}
