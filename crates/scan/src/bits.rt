// A bit vector under the limits: its count, 14, depth, memory, room for all its cells at once, and then its bytes.
ghost use Rattle.std.specs.Prelude.{◌+◌, ◌≤◌, ◌<◌, ◌^◌, length};
ghost use Rattle.rules.specs.Bits.{words64};
ghost use Rattle.rules.specs.Refusals.{max_bits};
ghost use Rattle.rules.specs.Scan.Landing.{Lands};
ghost use Rattle.rules.specs.Scan.Pass.{pass_at};
ghost use Rattle.rules.specs.Scan.Single.{lanes_pass};
ghost use Rattle.rules.specs.Types.{bits};

use leaf::count_from;
use meter::Meter;
use rules::{Answer, Reason, Totals, refuse};

// The bytes of n bits, from s on, behind the head of a bit vector at `at` that ended at `end` and asked for the room of their cells.
fn scan_lanes(
    n: u64,
    at: usize,
    end: usize,
    s: &[u8],
    t: Totals,
    cells: &mut [u64],
) -> Answer<(Totals, usize)>
    requires { (n ≤ max_bits) × (end + length s.now < 2 ^ 64) × (t.cells + words64 n < 2 ^ 64) }
    ensures { Lands (lanes_pass n at end s.now t) cells.old t result cells.new }
{
    let used = bit_vec::read(n, at, s, cells, t.cells as usize)?;
    Ok((
        Totals {
            cells: t.cells + n.div_ceil(64),
            ..t
        },
        end + used,
    ))
}

// A bit vector at offset `at`, which is where s starts, inside `level` vectors.
pub(crate) fn scan_bits(
    level: u32,
    at: usize,
    s: &[u8],
    m: Meter,
    cells: &mut [u64],
) -> Answer<(Totals, usize)>
    requires { (at + length s.now < 2 ^ 64) × (m.totals.cells ≤ m.limits.cells) × (m.limits.cells < 2 ^ 64) }
    ensures { Lands (pass_at bits m.limits level at s.now m.totals) cells.old m.totals result cells.new }
{
    let (n, used) = count_from(at, s)?;
    if rules::MAX_BITS < n {
        return refuse(Reason::BitCount, at);
    }
    let room = n.div_ceil(64);
    let (t, end) = m.enter(level, at, at + used, n, n.div_ceil(8), room, cells)?;
    scan_lanes(n, at, end, &s[used..], t, cells)
}
