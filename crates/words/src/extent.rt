// How far a table reaches.
ghost use Rattle.std.specs.Prelude.{◌≤◌};
ghost use Rattle.words.specs.Layout.{MOST_CELLS, MOST_DEVICES};

// How many devices and cells a table has: no more than are allowed.
#[derive(Clone, Copy, Debug, PartialEq, Eq)]
pub struct Extent {
    pub devices: usize,
    pub cells: usize,
    pub ghost few_devices: { devices ≤ MOST_DEVICES },
    pub ghost few_cells: { cells ≤ MOST_CELLS },
}
