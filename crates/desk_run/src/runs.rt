// Document 01's "Run" lines: "push 1,000,000 done, next 9; accept and 8 batches, each moving a round, unread, leave 8 items".
use devices::calls::{ask, push, receive, send};
use protocol::Refusal;
use server::calls::{accept, batch};
use sheet::Answer;
use showing::{is_done, show_answer};
use std::io;
use table::begin::start;
use words::layout::{RECORD, RECORDS};

const ROOM: usize = RECORDS + RECORD * 2;

fn answered(rt: &impl Print, what: &str, a: Result<Answer, Refusal>) -> io::Result<()> {
    print!(rt; "{what}: ")?;
    show_answer(rt, a)?;
    println!(rt; "")
}

// Makes a call n times at most, as long as it is done; tells how often it was.
fn times_done<F: Fn(&mut [u64]) -> bool>(t: &mut [u64], n: u64, call: F) -> u64
    requires { F.IsAlwaysCallable call }
{
    for i in 0..n {
        if !call(t) {
            return i;
        }
    }
    n
}

fn tell(rt: &impl Print, what: &str, n: u64) -> io::Result<()> {
    println!(rt; "{what}: {n}")
}

fn pushes(rt: &impl Print) -> io::Result<()> {
    let mut t = [0u64; ROOM];
    answered(rt, "start", start(&mut t, 1, 1))?;
    let pushed = times_done(&mut t, 2000000, |t| is_done(push(t, 0)));
    tell(rt, "pushes done", pushed)?;
    answered(rt, "next push", push(&mut t, 0))
}

// One push of device 1, sent and taken.
fn send_one(rt: &impl Print, t: &mut [u64]) -> io::Result<()> {
    let _ = push(t, 1);
    let _ = send(t, 1);
    answered(rt, "batch 0,1", batch(t, &[0, 1]))
}

fn eight_batches(rt: &impl Print, t: &mut [u64]) -> io::Result<()> {
    for _ in 0..8 {
        send_one(rt, t)?;
    }
    Ok(())
}

fn items(rt: &impl Print) -> io::Result<()> {
    let mut t = [0u64; ROOM];
    let _ = start(&mut t, 2, 1);
    let _ = ask(&mut t, 1);
    let _ = accept(&mut t, 1);
    let _ = receive(&mut t, 1);
    let _ = ask(&mut t, 0);
    answered(rt, "accept 0", accept(&mut t, 0))?;
    eight_batches(rt, &mut t)?;
    let received = times_done(&mut t, 100, |t| is_done(receive(t, 0)));
    tell(rt, "items received", received)?;
    answered(rt, "next receive", receive(&mut t, 0))
}

pub fn runs(rt: &impl Print) -> io::Result<()> {
    pushes(rt)?;
    items(rt)
}
