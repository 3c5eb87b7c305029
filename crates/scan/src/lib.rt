// The walk over a message by a table, under limits: one walker decides, with no cells lent, and fills, with cells lent, since a cell past the end of what was
// lent is not written.
#![tactic(auto)]

mod bits;
mod plan;
mod single;
mod walk;

ghost use Rattle.std.specs.Prelude.{◌≡◌};
ghost use Rattle.std.proofs.lemmas.List.Edits.{sets};
ghost use Rattle.rules.specs.Jobs.{read_front};
ghost use Rattle.rules.specs.Scan.{scan, scanned};
ghost use Rattle.rules.specs.Table.{root};
ghost use Rattle.scan.specs.Walk.{passed_in};

use meter::Meter;
use plan::Plan;
use rules::{Answer, Limits, Totals};
use table::Checked;

// The value of the root of a checked table at the front of s, with its cells from the first lent one on.
fn scan_root(
    checked: Checked,
    s: &[u8],
    limits: Limits,
    cells: &mut [u64],
) -> Answer<(Totals, usize)>
    ensures answers { result ≡ scan (root checked.entry.table.now) limits s.now }
    ensures writes { cells.new ≡ sets cells.old 0 (scanned (root checked.entry.table.now) limits s.now) }
{
    let root = checked.root();
    let units = totals::count_units(&checked);
    let plan = Plan { checked, units };
    let totals = Totals {
        depth: 0,
        charge: 0,
        cells: 0,
    };
    plan.item(root, 0, 0, s, Meter { limits, totals }, cells)
}

// Walks the value at the front of s. The cells of all items that it passes stand in the lent ones afterwards, as far as they go, where it is refused too.
pub fn scan_front(
    table: &[u8],
    s: &[u8],
    limits: Limits,
    cells: &mut [u64],
) -> Answer<(Totals, usize)>
    ensures answers { result ≡ read_front table.now s.now limits }
    ensures writes { cells.new ≡ sets cells.old 0 (passed_in table.now limits s.now) }
{
    let checked = table::checked(table)?;
    scan_root(checked, s, limits, cells)
}
