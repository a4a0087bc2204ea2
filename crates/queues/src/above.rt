// The pending rounds above a number.
ghost use Rattle.std.specs.Prelude.{◌≡◌, ◌≤◌, length, get_or};
ghost use Rattle.protocol.specs.Machine.{above, beyond};
ghost use Rattle.words.specs.Layout.{PENDING, PENDING_LENGTH, QUEUE, RECORD, WAITING, WAITING_LENGTH};
ghost use Rattle.record.specs.Reading.{given_by};
ghost use Rattle.sheet.specs.Sheet.{sheet};
ghost use Rattle.queues.specs.Parts.{round_entry, Requeued};
ghost use Rattle.queues.specs.Rounds.{rounds_of, CountedTo, HasPending};

use crate::round::move_rounds;
use words::layout::{PENDING, PENDING_LENGTH, ROUND, WAITING, WAITING_LENGTH};

// How many pending rounds, from the first on, are numbered up to `number`.
fn count_to(r: &[u64], number: u64) -> usize
    requires { (length r.now ≡ RECORD) × (get_or r.now PENDING_LENGTH 0 ≤ QUEUE) }
    ensures { CountedTo r.now number result }
{
    let n = r[PENDING_LENGTH] as usize;
    for j in 0..n {
        if r[PENDING + ROUND * j] > number {
            return j;
        }
    }
    n
}

// Removes the pending rounds up to the number that a word gives, if it gives one.
pub fn forget(r: &mut [u64], word: u64, cells: usize)
    requires { HasPending cells r.old }
    ensures { Requeued (round_entry cells) r.old r.new PENDING_LENGTH PENDING (beyond sheet (given_by word) (rounds_of cells r.old PENDING_LENGTH PENDING)) }
{
    if word == 0 {
        return;
    }
    let gone = count_to(r, word - 1);
    // where none goes nothing is moved: a round is never stored over itself
    if gone == 0 {
        return;
    }
    let left = r[PENDING_LENGTH] as usize - gone;
    move_rounds(r, PENDING + ROUND * gone, PENDING, left, cells);
    r[PENDING_LENGTH] = left as u64;
}

// Puts the pending rounds above a number onto the channel, in order, in place of what waits there.
pub fn put_above(r: &mut [u64], number: u64, cells: usize)
    requires { HasPending cells r.old }
    ensures { Requeued (round_entry cells) r.old r.new WAITING_LENGTH WAITING (above sheet number (rounds_of cells r.old PENDING_LENGTH PENDING)) }
{
    let gone = count_to(r, number);
    let left = r[PENDING_LENGTH] as usize - gone;
    move_rounds(r, PENDING + ROUND * gone, WAITING, left, cells);
    r[WAITING_LENGTH] = left as u64;
}
