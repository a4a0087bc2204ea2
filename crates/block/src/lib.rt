// The pasted block: a lent slice of updates, joined to a device's open transaction in one call, all or none. The updates are first looked
// over, which changes nothing, and then joined.

#![tactic(auto)]

ghost use Rattle.std.specs.Prelude.{◌≡◌, ◌<◌, ◌≤◌, get_or, take};
ghost use Rattle.protocol.specs.Machine.{done, step};
ghost use Rattle.protocol.specs.Machine as machine;
ghost use Rattle.sheet.specs.Sheet.{sheet};
ghost use Rattle.sheet.specs.Answer.{meaning, block_meaning};
ghost use Rattle.words.specs.Layout.{CELLS, DEVICES};
ghost use Rattle.table.specs.Table.{IsTable};
ghost use Rattle.table.specs.Promise.{Stepped};
ghost use Rattle.block.specs.Block.{updates_in, first_bad, Checked, LookedOver};

use cells::Update;
use cells::stored::is_finite_update;
use device::step::Operation;
use devices::calls::on_known;
use protocol::Refusal;
use sheet::{Answer, BlockRefusal};
use table::known::extent_with;

// One line of a pasted block.
#[derive(Clone, Copy, Debug, PartialEq)]
pub struct Entry {
    pub cell: u64,
    pub update: Update,
}

// Whether an update can be taken, where the table has so many cells.
fn check(cells: u64, e: Entry) -> Result<(), Refusal>
    ensures { Checked cells e result }
{
    if e.cell >= cells {
        return Err(Refusal::NoCell);
    }
    if !is_finite_update(e.update) {
        return Err(Refusal::NotFinite);
    }
    Ok(())
}

// Looks at each update: "In a block the first bad update counts".
fn look_over(cells: u64, entries: &[Entry]) -> Result<(), BlockRefusal>
    ensures { LookedOver cells entries.now result }
{
    for (i, e) in entries.iter().enumerate() {
        if let Err(refusal) = check(cells, *e) {
            return Err(BlockRefusal::Update(refusal, i as u64));
        }
    }
    Ok(())
}

// Joins each update of a good block.
fn join_all(t: &mut [u64], d: u64, entries: &[Entry]) -> Result<Answer, Refusal>
    requires { IsTable t.old × (d < get_or t.old DEVICES 0) × (first_bad (get_or t.old CELLS 0) 0 entries.now ≡ done) }
    ensures { Stepped (step sheet (machine.block d (updates_in entries.now))) t.old (meaning result) t.new }
{
    for e in entries {
        on_known(t, d, Operation::Update(e.cell, e.update))?;
    }
    Ok(Answer::Done)
}

pub fn block(t: &mut [u64], d: u64, entries: &[Entry]) -> Result<Answer, BlockRefusal>
    ensures { Stepped (step sheet (machine.block d (updates_in entries.now))) t.old (block_meaning result) t.new }
{
    let extent = extent_with(t, d)?;
    look_over(extent.cells as u64, entries)?;
    Ok(join_all(t, d, entries)?)
}

// The first k of four updates by value, for programs that hold them so.
pub fn block_of(
    t: &mut [u64],
    d: u64,
    entries: [Entry; 4],
    k: usize,
) -> Result<Answer, BlockRefusal>
    requires { k ≤ 4 }
    ensures { Stepped (step sheet (machine.block d (updates_in (take k entries)))) t.old (block_meaning result) t.new }
{
    block(t, d, &entries[..k])
}
