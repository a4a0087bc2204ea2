// Any call on lent words, by its number and with numbers for its arguments: what a test sends from outside.

#![tactic(auto)]

ghost use Rattle.std.specs.Prelude.{◌≡◌, ◌≢◌, ◌≤◌, min, take};
ghost use Rattle.protocol.specs.Machine.{step};
ghost use Rattle.protocol.specs.Machine as machine;
ghost use Rattle.sheet.specs.Sheet.{sheet};
ghost use Rattle.sheet.specs.Answer.{meaning, block_meaning};
ghost use Rattle.table.specs.Promise.{Stepped};
ghost use Rattle.block.specs.Block.{updates_in};
ghost use Rattle.probing.specs.Probe.{measured_from, update_from, entry_at, entries_in, Probed};

use block::{Entry, block_of};
use cells::measured::{f64_of_bits, finite_bits};
use cells::signed::i64_of_bits;
use cells::{Cell, Update};
use devices::calls::{ask, confirmed, give_up, pull, push, read, receive, send, update};
use protocol::Refusal;
use server::calls::{accept, batch, crash, cut, serverdrop};
use sheet::{Answer, BlockRefusal};
use table::begin::start;
use words::list::word_at;

// The language gives a NaN's bits no meaning, so every word that is no finite number's is an infinity: a call refuses both alike.
fn measured_from(payload: u64) -> f64
    ensures { result ≡ measured_from payload }
{
    if finite_bits(payload) {
        f64_of_bits(payload)
    } else {
        1.0 / 0.0
    }
}

// The update of a kind, as a change's place has it, and a payload.
fn update_from(kind: u64, payload: u64) -> Update
    ensures { result ≡ update_from kind payload }
{
    match kind {
        1 => Update::Set(Cell::Blank),
        2 => Update::Set(Cell::Count(i64_of_bits(payload))),
        3 => Update::Set(Cell::Measure(measured_from(payload))),
        _ => Update::Add(i64_of_bits(payload)),
    }
}

// The entry in the three words of the list from i on.
fn entry_at(list: &[u64], i: usize) -> Entry
    requires { i ≤ 9 }
    ensures { result ≡ entry_at list.now i }
{
    let cell = word_at(list, i);
    let kind = word_at(list, i + 1);
    let payload = word_at(list, i + 2);
    Entry {
        cell: cell,
        update: update_from(kind, payload),
    }
}

// The four entries that stand in the list.
fn entries_in(list: &[u64]) -> [Entry; 4]
    ensures { result ≡ entries_in list.now }
{
    [
        entry_at(list, 0),
        entry_at(list, 3),
        entry_at(list, 6),
        entry_at(list, 9),
    ]
}

fn at_most_4(n: u64) -> usize
    ensures { result ≡ min n 4 }
{
    n.min(4) as usize
}

// A block of the first n of the entries in the list.
fn paste(t: &mut [u64], d: u64, n: u64, list: &[u64]) -> Result<Answer, BlockRefusal>
    ensures { Stepped (step sheet (machine.block d (updates_in (take (min n 4) (entries_in list.now))))) t.old (block_meaning result) t.new }
{
    block_of(t, d, entries_in(list), at_most_4(n))
}

// The call of a number other than the block's.
fn call_of(
    t: &mut [u64],
    call: u64,
    a: u64,
    b: u64,
    kind: u64,
    payload: u64,
    list: &[u64],
) -> Result<Answer, Refusal>
    requires { call ≢ 15 }
    ensures { Probed call a b (update_from kind payload) list.now t.old (meaning result) t.new }
{
    match call {
        0 => start(t, a, b),
        1 => update(t, a, b, update_from(kind, payload)),
        2 => read(t, a, b),
        3 => push(t, a),
        4 => send(t, a),
        5 => confirmed(t, a),
        6 => ask(t, a),
        7 => give_up(t, a),
        8 => receive(t, a),
        9 => pull(t, a),
        10 => accept(t, a),
        11 => serverdrop(t, a),
        12 => crash(t),
        13 => batch(t, list),
        14 => cut(t, list, a),
        _ => Err(Refusal::NoStep),
    }
}

// The call of a number, with the numbers that it takes: a and b are devices and cells, or a device and a cell, or a device and how many
// entries, or the reach of a cut; the list has the counts, or the entries. A number that is no call's is refused 13.
pub fn probe(
    t: &mut [u64],
    call: u64,
    a: u64,
    b: u64,
    kind: u64,
    payload: u64,
    list: &[u64],
) -> Result<Answer, BlockRefusal>
    ensures { Probed call a b (update_from kind payload) list.now t.old (block_meaning result) t.new }
{
    match call {
        15 => paste(t, a, b, list),
        _ => Ok(call_of(t, call, a, b, kind, payload, list)?),
    }
}
