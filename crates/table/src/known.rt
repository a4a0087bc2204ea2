// What every call asks first: whether the contents are a table, and whether the table has the device.
ghost use Rattle.table.specs.Known.{ExtentOf, ExtentWith};

use crate::check::is_table;
use protocol::Refusal;
use words::extent::Extent;
use words::layout::{CELLS, DEVICES};

// How far a table reaches.
pub fn extent_of(t: &[u64]) -> Result<Extent, Refusal>
    ensures { ExtentOf t.now result }
{
    if !is_table(t) {
        return Err(Refusal::NoTable);
    }
    Ok(Extent {
        devices: t[DEVICES] as usize,
        cells: t[CELLS] as usize,
    })
}

// The same of a table that has device d.
pub fn extent_with(t: &[u64], d: u64) -> Result<Extent, Refusal>
    ensures { ExtentWith t.now d result }
{
    let extent = extent_of(t)?;
    if d >= extent.devices as u64 {
        return Err(Refusal::NoDevice);
    }
    Ok(extent)
}
