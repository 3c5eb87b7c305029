// Reading any bytes under limits, by any table: at the front of a message or the whole of it, into lent cells or only to measure. A reading goes over the
// message twice: first with no cells, to decide, and then, if it is accepted, to fill; so a refusal leaves the lent cells as they were.
// The four readers stay four by name, since callers know them; each is a few lines over what they share.
#![tactic(auto)]

ghost use Rattle.std.specs.Prelude.{◌≡◌, length};
ghost use Rattle.rules.specs.Jobs.{read_front, read_whole, cut_to, cells_after};
ghost use Rattle.rules.specs.Scan.{scanned};
ghost use Rattle.rules.specs.Table.{root};

use rules::{Answer, Limits, Reason, Totals, refuse};
use scan::scan_front;

// Measures the value at the front of s: what reading it would answer if C cells were lent.
pub fn measure_front(table: &[u8], s: &[u8], limits: Limits) -> Answer<(Totals, usize)>
    ensures { result ≡ read_front table.now s.now limits }
{
    scan_front(table, s, limits, &mut [])
}

// Measures a value that must take all of s: bytes left over are refused, last.
pub fn measure_whole(table: &[u8], s: &[u8], limits: Limits) -> Answer<(Totals, usize)>
    ensures { result ≡ read_whole table.now s.now limits }
{
    let (totals, used) = measure_front(table, s, limits)?;
    if used < s.len() {
        return refuse(Reason::BytesLeft, used);
    }
    Ok((totals, used))
}

// C is cut to the lent cells.
fn cut_to(lent: usize, limits: Limits) -> Limits
    ensures { result ≡ cut_to lent limits }
{
    Limits {
        cells: limits.cells.min(lent as u64),
        ..limits
    }
}

// Reads the value at the front of s into the lent cells: exactly the counted ones are written if it is accepted, and none if it is refused.
pub fn read_front(
    table: &[u8],
    s: &[u8],
    limits: Limits,
    cells: &mut [u64],
) -> Answer<(Totals, usize)>
    ensures answers { result ≡ read_front table.now s.now (cut_to (length cells.old) limits) }
    ensures writes { cells.new ≡ cells_after (scanned (root table.now) (cut_to (length cells.old) limits) s.now) result cells.old }
{
    let cut = cut_to(cells.len(), limits);
    measure_front(table, s, cut)?;
    scan_front(table, s, cut, cells)
}

// Reads a value that must take all of s into the lent cells, likewise.
pub fn read_whole(
    table: &[u8],
    s: &[u8],
    limits: Limits,
    cells: &mut [u64],
) -> Answer<(Totals, usize)>
    ensures answers { result ≡ read_whole table.now s.now (cut_to (length cells.old) limits) }
    ensures writes { cells.new ≡ cells_after (scanned (root table.now) (cut_to (length cells.old) limits) s.now) result cells.old }
{
    let cut = cut_to(cells.len(), limits);
    measure_whole(table, s, cut)?;
    scan_front(table, s, cut, cells)
}
