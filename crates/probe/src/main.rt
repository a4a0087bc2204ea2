// Makes calls on given words, for tests. A record of the input is 7 words, the number n of words of the table, the call, a, b, the kind, the
// payload and the length m of the list, then the m words of the list and the n words of the table, each in 8 bytes, the low one first.
// The call is made on a slice of just n words. The output has for each record 3 words of the answer and the n words afterwards.
// It ends at the end of the input, and at a record whose n or m is too large.

#![tactic(auto)]

use cells::Cell;
use cells::stored::{Stored, is_finite_cell};
use probing::probe;
use sheet::{Answer, BlockRefusal, number_of};
use std::io::Read;
use words::layout::{RECORD, RECORDS};

// Enough for nine devices, and some words past them.
const ROOM: usize = RECORDS + RECORD * 9 + 60;

const BYTES: usize = ROOM * 8;

const HEAD: usize = 7;

const LIST: usize = 16;

// The words that stand in the bytes.
fn unpack(words: &mut [u64], bytes: &[u8]) {
    for (word, eight) in words.iter_mut().zip(bytes.as_chunks::<8>().0) {
        *word = u64::from_le_bytes(*eight);
    }
}

// Puts the words into the bytes.
fn pack(words: &[u64], bytes: &mut [u8]) {
    for (word, eight) in words.iter().zip(bytes.chunks_exact_mut(8)) {
        eight.copy_from_slice(&word.to_le_bytes());
    }
}

// Reads as many words as there are, by way of the bytes, and answers whether they were there.
fn read_words(rt: &impl Input, words: &mut [u64], bytes: &mut [u8]) -> bool {
    let n = words.len();
    if n > bytes.len() / 8 {
        return false;
    }
    let k = n * 8;
    if rt.reader().read_exact(&mut bytes[..k]).is_err() {
        return false;
    }
    unpack(words, bytes);
    true
}

// Writes the words, by way of the bytes, and answers whether they are written.
fn write_words(rt: &impl Print, words: &[u64], bytes: &mut [u8]) -> bool {
    let n = words.len();
    if n > bytes.len() / 8 {
        return false;
    }
    pack(words, bytes);
    let k = n * 8;
    rt.write_all(&bytes[..k]).is_ok()
}

fn cell_words(c: Cell) -> [u64; 3] {
    let payload = if is_finite_cell(c) { c.payload() } else { 0 };
    [1, c.kind(), payload]
}

// An answer in three words: its kind, and what it says.
fn answer_words(a: Result<Answer, BlockRefusal>) -> [u64; 3] {
    match a {
        Ok(Answer::Done) => [0, 0, 0],
        Ok(Answer::Value(c)) => cell_words(c),
        Ok(Answer::Yes) => [2, 0, 0],
        Ok(Answer::No) => [3, 0, 0],
        Ok(Answer::Moved(k)) => [4, k, 0],
        Ok(Answer::Length(k)) => [5, k, 0],
        Err(BlockRefusal::Call(r)) => [6, number_of(r), 0],
        Err(BlockRefusal::Update(r, k)) => [7, number_of(r), k],
    }
}

// Reads the first n of the words.
fn read_first(rt: &impl Input, words: &mut [u64], n: usize, bytes: &mut [u8]) -> bool {
    if n > words.len() {
        return false;
    }
    read_words(rt, &mut words[..n], bytes)
}

// Writes the first n of the words.
fn write_first(rt: &impl Print, words: &[u64], n: usize, bytes: &mut [u8]) -> bool {
    if n > words.len() {
        return false;
    }
    write_words(rt, &words[..n], bytes)
}

// Makes the call on the first n words of the table, with the first m words of the list.
fn call_on(t: &mut [u64], n: usize, head: [u64; HEAD], list: &[u64], m: usize) -> [u64; 3] {
    if n > t.len() {
        return [8, 0, 0];
    }
    if m > list.len() {
        return [8, 0, 0];
    }
    answer_words(probe(
        &mut t[..n],
        head[1],
        head[2],
        head[3],
        head[4],
        head[5],
        &list[..m],
    ))
}

// Makes the call of one record, and answers whether there was one.
fn turn(rt: &(impl Input + Print), t: &mut [u64], list: &mut [u64], bytes: &mut [u8]) -> bool {
    let mut head = [0u64; HEAD];
    if !read_words(rt, &mut head, bytes) {
        return false;
    }
    let n = head[0] as usize;
    let m = head[6] as usize;
    if !read_first(rt, list, m, bytes) {
        return false;
    }
    if !read_first(rt, t, n, bytes) {
        return false;
    }
    let said = call_on(t, n, head, list, m);
    if !write_words(rt, &said, bytes) {
        return false;
    }
    write_first(rt, t, n, bytes)
}

// A proved loop has to end, so the records are counted, up to a number that no run reaches.
fn run(rt: &(impl Input + Print), t: &mut [u64], list: &mut [u64], bytes: &mut [u8]) {
    for _ in 0..u64::MAX {
        if !turn(rt, t, list, bytes) {
            return;
        }
    }
}

fn main(rt: HostRuntime) {
    let mut t = [0u64; ROOM];
    let mut list = [0u64; LIST];
    let mut bytes = [0u8; BYTES];
    run(&rt, &mut t, &mut list, &mut bytes);
}
