// Rounds that wait on a connection: how many a count takes, and those that go, taken or lost with it.
ghost use Rattle.std.specs.Prelude.{◌≡◌, ◌≤◌, min, get_or, drop};
ghost use Rattle.protocol.specs.Machine.{choose, is_held};
ghost use Rattle.words.specs.Layout.{STALE, WAITING, WAITING_LENGTH};
ghost use Rattle.record.specs.Reading.{connection_of};
ghost use Rattle.queues.specs.Parts.{round_entry, Requeued};
ghost use Rattle.link.specs.Gather.{first_waiting};
ghost use Rattle.link.specs.Waiting.{gone, HasWaiting};

use queues::round::move_rounds;
use words::layout::{ROUND, STALE, WAITING, WAITING_LENGTH};

// How many of the waiting rounds a count takes: none without a connection.
pub fn share(count: u64, connection: u64, waiting: u64) -> u64
    requires { connection ≤ STALE }
    ensures { result ≡ min (choose (is_held (connection_of connection)) count 0) waiting }
{
    if connection == 0 {
        return 0;
    }
    count.min(waiting)
}

// How many waiting rounds go. A crash ends a stale connection, and all that waits on it is gone.
pub fn going(count: u64, connection: u64, waiting: u64, crash: bool) -> u64
    requires { connection ≤ STALE }
    ensures { result ≡ gone count connection waiting crash }
{
    if !crash {
        return share(count, connection, waiting);
    }
    if connection == STALE {
        return waiting;
    }
    share(count, connection, waiting)
}

// Removes the first k waiting rounds.
pub fn drop_waiting(r: &mut [u64], k: usize, cells: usize)
    requires { HasWaiting cells k r.old }
    ensures { Requeued (round_entry cells) r.old r.new WAITING_LENGTH WAITING (drop k (first_waiting cells (get_or r.old WAITING_LENGTH 0) r.old)) }
{
    if k == 0 {
        return;
    }
    let left = r[WAITING_LENGTH] as usize - k;
    move_rounds(r, WAITING + ROUND * k, WAITING, left, cells);
    r[WAITING_LENGTH] = left as u64;
}
