// The single numbers of a record, and what they say of the link.
ghost use Rattle.std.specs.Prelude.{◌≡◌, length};
ghost use Rattle.words.specs.Layout.{RECORD};
ghost use Rattle.words.specs.Place.{Decides};
ghost use Rattle.record.specs.Conditions.{Singles, Lengths, Channels, Requests};

use words::layout::{
    ASKED, CHANNEL, CONNECTION, COVERED, ESTABLISHED, ITEMS_LENGTH, LAST, LIVE, MOST_PUSHES,
    PENDING_LENGTH, QUEUE, REQUEST, STALE, TAKEN, WAITING_LENGTH,
};

// Whether the numbers of a record are in range.
pub fn are_singles(r: &[u64]) -> bool
    requires { length r.now ≡ RECORD }
    ensures { Decides result (Singles r.now) }
{
    let last = r[LAST];
    last <= MOST_PUSHES
        && r[COVERED] <= last
        && r[TAKEN] <= last
        && r[CHANNEL] <= ESTABLISHED
        && r[CONNECTION] <= STALE
        && r[REQUEST] <= 1
}

// Whether the queues are within the allowed lengths, and no more rounds wait than are pending.
pub fn are_lengths(r: &[u64]) -> bool
    requires { length r.now ≡ RECORD }
    ensures { Decides result (Lengths r.now) }
{
    r[PENDING_LENGTH] <= QUEUE as u64
        && r[WAITING_LENGTH] <= r[PENDING_LENGTH]
        && r[ITEMS_LENGTH] <= QUEUE as u64
}

// Whether what waits has its channel.
pub fn is_channel(r: &[u64]) -> bool
    requires { (length r.now ≡ RECORD) × Singles r.now }
    ensures { Decides result (Channels r.now) }
{
    let connection = r[CONNECTION];
    // of a channel that is not established only a stale connection has rounds
    let none_early = connection == STALE || r[WAITING_LENGTH] == 0;
    match r[CHANNEL] {
        ESTABLISHED => connection != STALE,
        ASKED => none_early && (connection != LIVE || r[ITEMS_LENGTH] != 0),
        _ => none_early && connection != LIVE && r[ITEMS_LENGTH] == 0,
    }
}

// Whether a request has its channel.
pub fn is_request(r: &[u64]) -> bool
    requires { length r.now ≡ RECORD }
    ensures { Decides result (Requests r.now) }
{
    r[REQUEST] == 0 || (r[CHANNEL] == ASKED && r[ITEMS_LENGTH] == 0)
}
