// A scalar or a tag under the limits. What it asks of the offset is a part of what the walkers ask, of this step's own bytes.
ghost use Rattle.std.specs.Prelude.{◌+◌, ◌<◌, ◌^◌, length};
ghost use Rattle.rules.specs.Scan.Landing.{Lands};
ghost use Rattle.rules.specs.Scan.Pass.{leaf_pass};

use leaf::{is_wide, leaf_from};
use meter::Meter;
use rules::{Answer, Leaf, Totals};

// A scalar or a tag: its bytes, their check, and then room for its cells.
pub(crate) fn scan_leaf(
    leaf: Leaf,
    at: usize,
    s: &[u8],
    m: Meter,
    cells: &mut [u64],
) -> Answer<(Totals, usize)>
    requires { at + length s.now < 2 ^ 64 }
    ensures { Lands (leaf_pass leaf m.limits at s.now m.totals) cells.old m.totals result cells.new }
{
    let (value, used) = leaf_from(leaf, at, s)?;
    let end = at + used;
    if is_wide(leaf) {
        return m.pass(at, end, &[value.low, value.high], cells);
    }
    m.pass(at, end, &[value.low], cells)
}
