// The entries of a record's queues.
ghost use Rattle.std.specs.Prelude.{◌≡◌, ℕ, ◌+◌, ◌≤◌, ◌<◌, length, get_or};
ghost use Rattle.words.specs.Layout.{ITEM, MOST_CELLS, MOST_DEVICES, PENDING_LENGTH, QUEUE, RECORD, WAITING_LENGTH};
ghost use Rattle.words.specs.Place.{Decides};
ghost use Rattle.record.specs.Conditions.{NumbersIn, GoodItem, DueKind, DueItem, GoodPending, GoodWaiting};

use cells::{Cell, Change};
use words::check::are_valid;
use words::extent::Extent;
use words::layout::{
    ASKED, CHANNEL, COVERED, ITEM, ITEM_NUMBERS, ITEM_PLACES, ITEMS, LAST, MOST_PUSHES, PENDING,
    PENDING_LENGTH, PREFIX, ROUND, ROUND_CHANGES, SEGMENT, WAITING, WAITING_LENGTH,
};

// Whether each of the n numbers from `at` on is from `least` to one more than the largest push.
fn are_numbers(r: &[u64], at: usize, n: usize, least: u64) -> bool
    requires { at + n ≤ length r.now }
    ensures { Decides result (NumbersIn r.now at n least) }
{
    r[at..at + n]
        .iter()
        .all(|number| least <= *number && *number <= MOST_PUSHES + 1)
}

// Whether the words from `at` on are an item's.
pub fn is_item(r: &[u64], at: usize, extent: Extent) -> bool
    requires { at + ITEM ≤ length r.now }
    ensures { Decides result (GoodItem extent.devices extent.cells r.now at) }
{
    match r[at] {
        PREFIX => {
            are_numbers(r, at + ITEM_NUMBERS, extent.devices, 1)
                && are_valid::<Cell>(r, at + ITEM_PLACES, extent.cells)
        }
        SEGMENT => {
            are_numbers(r, at + ITEM_NUMBERS, extent.devices, 0)
                && are_valid::<Change>(r, at + ITEM_PLACES, extent.cells)
        }
        _ => false,
    }
}

// Whether an item of this kind may stand in place j: a prefix in first place on an asked channel, else a segment.
fn is_due(kind: u64, j: usize, channel: u64) -> bool
    ensures { Decides result (DueKind kind j channel) }
{
    (kind == PREFIX) == (j == 0 && channel == ASKED)
}

// Whether the j-th item is one, and may stand there.
fn is_due_item(r: &[u64], j: usize, extent: Extent) -> bool
    requires { (length r.now ≡ RECORD) × (j < QUEUE) }
    ensures { Decides result (DueItem extent.devices extent.cells r.now j) }
{
    let at = ITEMS + ITEM * j;
    is_due(r[at], j, r[CHANNEL]) && is_item(r, at, extent)
}

// Whether the first n items are.
pub fn are_items(r: &[u64], n: usize, extent: Extent) -> bool
    requires { (length r.now ≡ RECORD) × (n ≤ QUEUE) }
    ensures { Decides result ((j : ℕ) → j < n → DueItem extent.devices extent.cells r.now j) }
{
    (0..n).all(|j| is_due_item(r, j, extent))
}

// Whether the j-th pending round is numbered above the one before it and not past the last push, and its changes are valid.
fn is_pending(r: &[u64], j: usize, cells: usize) -> bool
    requires { (length r.now ≡ RECORD) × (j < QUEUE) × (cells ≤ MOST_CELLS) }
    ensures { Decides result (GoodPending cells r.now j) }
{
    let at = PENDING + ROUND * j;
    let number = r[at];
    let before = if j > 0 { r[at - ROUND] } else { 0 };
    number > before
        && number <= r[LAST]
        && (r[COVERED] == 0 || number < r[LAST])
        && are_valid::<Change>(r, at + ROUND_CHANGES, cells)
}

// Whether the first n pending rounds are so.
pub fn are_pending(r: &[u64], n: usize, cells: usize) -> bool
    requires { (length r.now ≡ RECORD) × (n ≤ QUEUE) × (cells ≤ MOST_CELLS) }
    ensures { Decides result ((j : ℕ) → j < n → GoodPending cells r.now j) }
{
    (0..n).all(|j| is_pending(r, j, cells))
}

// Whether the j-th waiting round is numbered as its place among the last pending ones, and its changes are valid.
fn is_waiting(r: &[u64], j: usize, cells: usize) -> bool
    requires { (length r.now ≡ RECORD) × (cells ≤ MOST_CELLS) × (get_or r.now PENDING_LENGTH 0 ≤ QUEUE) × (get_or r.now WAITING_LENGTH 0 ≤ get_or r.now PENDING_LENGTH 0) × (j < get_or r.now WAITING_LENGTH 0) }
    ensures { Decides result (GoodWaiting cells r.now j) }
{
    let at = WAITING + ROUND * j;
    let skip = (r[PENDING_LENGTH] - r[WAITING_LENGTH]) as usize;
    r[at] == r[PENDING + ROUND * (skip + j)] && are_valid::<Change>(r, at + ROUND_CHANGES, cells)
}

// Whether every waiting round is so.
pub fn are_waiting(r: &[u64], n: usize, cells: usize) -> bool
    requires { (length r.now ≡ RECORD) × (cells ≤ MOST_CELLS) × (get_or r.now PENDING_LENGTH 0 ≤ QUEUE) × (get_or r.now WAITING_LENGTH 0 ≤ get_or r.now PENDING_LENGTH 0) × (n ≤ get_or r.now WAITING_LENGTH 0) }
    ensures { Decides result ((j : ℕ) → j < n → GoodWaiting cells r.now j) }
{
    (0..n).all(|j| is_waiting(r, j, cells))
}
