// Whether a device's record is a table's: document 01's conditions that belong to one device.
ghost use Rattle.std.specs.Prelude.{◌≡◌, ◌≤◌, length};
ghost use Rattle.words.specs.Layout.{MOST_CELLS, MOST_DEVICES, RECORD};
ghost use Rattle.words.specs.Place.{Decides};
ghost use Rattle.record.specs.Conditions.{Sheets};
ghost use Rattle.record.specs.Valid.{IsRecord};

use crate::link::{are_lengths, are_singles, is_channel, is_request};
use cells::{Cell, Change};
use entries::entries::{are_items, are_pending, are_waiting, is_item};
use words::check::are_valid;
use words::extent::Extent;
use words::layout::{
    BUFFERED, ITEMS_LENGTH, KNOWN, PENDING_LENGTH, RECEIVED, TRANSACTION, WAITING_LENGTH,
};

// Whether the known sheet, the open transaction, the push buffer and the receive buffer are valid.
fn are_sheets(r: &[u64], extent: Extent) -> bool
    requires { length r.now ≡ RECORD }
    ensures { Decides result (Sheets extent.devices extent.cells r.now) }
{
    are_valid::<Cell>(r, KNOWN, extent.cells)
        && are_valid::<Change>(r, TRANSACTION, extent.cells)
        && are_valid::<Change>(r, BUFFERED, extent.cells)
        && (r[RECEIVED] == 0 || is_item(r, RECEIVED, extent))
}

// Whether the record is one of a table of so many devices and cells.
pub fn is_record(r: &[u64], extent: Extent) -> bool
    requires { length r.now ≡ RECORD }
    ensures { Decides result (IsRecord extent.devices extent.cells r.now) }
{
    are_singles(r)
        && are_lengths(r)
        && is_channel(r)
        && is_request(r)
        && are_sheets(r, extent)
        && are_pending(r, r[PENDING_LENGTH] as usize, extent.cells)
        && are_waiting(r, r[WAITING_LENGTH] as usize, extent.cells)
        && are_items(r, r[ITEMS_LENGTH] as usize, extent)
}
