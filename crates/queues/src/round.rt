// Rounds in a record's queues.
ghost use Rattle.std.specs.Prelude.{◌+◌, ◌*◌, ◌≤◌};
ghost use Rattle.words.specs.Layout.{CHANGE, MOST_CELLS, ROUND, ROUND_CHANGES};
ghost use Rattle.words.specs.Place.{change_place, Beside, Out};
ghost use Rattle.record.specs.Reading.{round_at};
ghost use Rattle.queues.specs.Parts.{round_entry, PutEntry, Movable, Moved, Requeued};
ghost use Rattle.queues.specs.Rounds.{round_from, with_round, Addable};

use cells::Change;
use words::layout::{BUFFERED, LAST, ROUND, ROUND_CHANGES};
use words::run::copy;

// Stores a round of a number, with the changes from `from` on.
fn store_round(r: &mut [u64], at: usize, number: u64, from: usize, cells: usize)
    requires { Beside change_place change_place r.old (at + ROUND_CHANGES) from cells × Out from (CHANGE * cells) at }
    ensures { PutEntry (round_entry cells) r.old r.new at (round_from cells r.old number from) }
{
    r[at] = number;
    copy::<Change>(r, from, at + ROUND_CHANGES, cells);
}

// Adds a round of the push buffer, numbered with the last push, to the queue from `at` on, whose length is the word at `count`.
pub fn add_round(r: &mut [u64], count: usize, at: usize, cells: usize)
    requires { Addable cells r.old count at }
    ensures { Requeued (round_entry cells) r.old r.new count at (with_round cells r.old count at) }
{
    let n = r[count];
    let last = r[LAST];
    store_round(r, at + ROUND * (n as usize), last, BUFFERED, cells);
    r[count] = n + 1;
}

// Moves the n rounds from `from` on to `to` on, the first one first.
pub fn move_rounds(r: &mut [u64], from: usize, to: usize, n: usize, cells: usize)
    requires { Movable (round_entry cells) r.old to from n × (cells ≤ MOST_CELLS) }
    ensures { Moved (round_entry cells) r.old r.new to n (λ j. round_at cells r.old (from + ROUND * j)) }
{
    for j in 0..n {
        let at = from + ROUND * j;
        let number = r[at];
        store_round(r, to + ROUND * j, number, at + ROUND_CHANGES, cells);
    }
}
