// Where each thing lies in the lent table, in words. The same names stand in specs/Layout.antt; no other file has an offset of its own.

// The largest numbers allowed: devices, cells, pushes by one device, and what a queue holds.
pub const MOST_DEVICES: usize = 8;

pub const MOST_CELLS: usize = 64;

pub const MOST_PUSHES: u64 = 1000000;

pub const QUEUE: usize = 8;

// Words of a place, which holds a cell or a change.
pub const PLACE: usize = 2;

pub const CELL: usize = PLACE;

pub const CHANGE: usize = PLACE;

// A round: its number, then a change for each cell.
pub const ROUND_CHANGES: usize = 1;

pub const ROUND: usize = 129;

// An item: its kind, then a number for each device, then a cell or a change for each cell.
pub const ITEM_KIND: usize = 0;

pub const ITEM_NUMBERS: usize = 1;

pub const ITEM_PLACES: usize = 9;

pub const ITEM: usize = 137;

// The kinds of an item; an empty receive buffer has kind 0.
pub const PREFIX: u64 = 1;

pub const SEGMENT: u64 = 2;

// A device's channel: none is 0.
pub const ASKED: u64 = 1;

pub const ESTABLISHED: u64 = 2;

// The server's connection to a device: none is 0.
pub const LIVE: u64 = 1;

pub const STALE: u64 = 2;

// A device's record: single numbers first.
pub const LAST: usize = 0;

pub const TAKEN: usize = 1;

pub const CHANNEL: usize = 2;

pub const REQUEST: usize = 3;

pub const CONNECTION: usize = 4;

pub const COVERED: usize = 5;

pub const PENDING_LENGTH: usize = 6;

pub const WAITING_LENGTH: usize = 7;

pub const ITEMS_LENGTH: usize = 8;

// Then the known sheet, the open transaction, the push buffer, the receive buffer, and the three queues.
pub const KNOWN: usize = 9;

pub const TRANSACTION: usize = 137;

pub const BUFFERED: usize = 265;

pub const RECEIVED: usize = 393;

pub const PENDING: usize = 530;

pub const WAITING: usize = 1562;

pub const ITEMS: usize = 2594;

pub const RECORD: usize = 3690;

// The table: the numbers of devices and of cells, the server's sheet, then a record for each device.
pub const DEVICES: usize = 0;

pub const CELLS: usize = 1;

pub const SHEET: usize = 2;

pub const RECORDS: usize = 130;
