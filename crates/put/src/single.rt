// A leaf or a bit vector on the way: what `leaf_put` answers of it counts from its own first cell and byte, and the walkers count from those of the whole.
ghost use Rattle.std.specs.Prelude.{◌≡◌};
ghost use Rattle.rules.specs.Put.{put, put_leaf};
ghost use Rattle.rules.specs.Types.{bits};
ghost use Rattle.put.specs.Written.{Spare, PutsAt, Placeable, placed_of};

use rules::{Answer, Leaf, refuse};

// The answer for a value whose first cell is at index `at` and whose first byte is at `pos`.
#[tactic(auto, unfolding(crate::specs::Written::placed_of))]
fn placed(at: usize, pos: usize, answer: Answer<(usize, usize)>) -> Answer<(usize, usize)>
    requires { Placeable at pos answer }
    ensures { result ≡ placed_of at pos answer }
{
    match answer {
        Ok((taken, used)) => Ok((at + taken, pos + used)),
        Err(y) => refuse(y.reason, at + y.place),
    }
}

// A scalar, a tag or a count whose cells start at index `at`, which is where cs starts, with its bytes from `pos` on.
pub(crate) fn put_leaf(
    leaf: Leaf,
    at: usize,
    cs: &[u64],
    out: &mut [u8],
    pos: usize,
) -> Answer<(usize, usize)>
    requires { Spare at cs.now pos }
    ensures { PutsAt at pos (put_leaf leaf at cs.now) out.old out.new result }
{
    placed(at, pos, leaf_put::put_leaf(leaf, cs, out, pos))
}

// The same for a bit vector.
pub(crate) fn put_bits(at: usize, cs: &[u64], out: &mut [u8], pos: usize) -> Answer<(usize, usize)>
    requires { Spare at cs.now pos }
    ensures { PutsAt at pos (put bits at cs.now) out.old out.new result }
{
    placed(at, pos, leaf_put::put_bits(cs, out, pos))
}
