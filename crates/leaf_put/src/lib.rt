// Scalars, tags, counts and bit vectors from cells: whether the cells are there and fit, and the bytes of the value. Floats and signed integers are their bits, and
// no bit of them is looked at. A byte past the end of the output is not written, so that a caller who lends none only learns how many there are.
// The place `pos` stands beside the output, as it does in crate `put`, whose walk answers it.
#![tactic(auto)]

ghost use Rattle.std.specs.Prelude.{◌≡◌, ◌+◌, ◌-◌, ◌^◌, ◌≤◌, ◌<◌, min, length, take};
ghost use Rattle.std.proofs.lemmas.List.Edits.{sets};
ghost use Rattle.rules.specs.Bits.{words64, lanes};
ghost use Rattle.rules.specs.Bytes.{whole};
ghost use Rattle.rules.specs.Cells.{one, halves, leaf_taken, wide};
ghost use Rattle.rules.specs.Put.{put, put_leaf};
ghost use Rattle.rules.specs.Refusals.{max_bits};
ghost use Rattle.rules.specs.Types.{bits, bound};
ghost use Rattle.rules.specs.Wire.{leaf_bytes, bits_bytes};
ghost use Rattle.leaf.specs.Taken.{halved};
ghost use Rattle.leaf_put.specs.Landed.{Puts};

use rules::{Answer, Halves, Leaf, Reason, Width, refuse};

// The largest number of a width that one cell holds.
fn most_of(width: Width) -> u64
    ensures { result ≡ min (bound (Leaf.Fixed width)) (2 ^ 64) - 1 }
{
    match width {
        Width::W1 => 0xff,
        Width::W2 => 0xffff,
        Width::W4 => 0xffff_ffff,
        Width::W8 | Width::W16 => u64::MAX,
    }
}

// The largest value of a leaf that one cell holds.
fn most(leaf: Leaf) -> u64
    ensures { result ≡ min (bound leaf) (2 ^ 64) - 1 }
{
    match leaf {
        Leaf::Unit => 0,
        Leaf::Bool => 1,
        Leaf::OptionBool => 2,
        Leaf::Fixed(width) | Leaf::Compact(width) | Leaf::Float(width) => most_of(width),
    }
}

// One cell, at most m.
fn one_cell(m: u64, cs: &[u64]) -> Answer<(Halves, usize)>
    ensures { result ≡ halved (one (m + 1) 0 cs.now) }
{
    if cs.len() == 0 {
        return refuse(Reason::CellsShort, 0);
    }
    if m < cs[0] {
        return refuse(Reason::CellUnfit, 0);
    }
    Ok((Halves::from(cs[0]), 1))
}

// Two cells, the low half first.
fn two_cells(cs: &[u64]) -> Answer<(Halves, usize)>
    ensures { result ≡ halved (halves 0 cs.now) }
{
    if cs.len() < 2 {
        return refuse(Reason::CellsShort, cs.len());
    }
    Ok((
        Halves {
            low: cs[0],
            high: cs[1],
        },
        2,
    ))
}

// A leaf's value from the cells that cs starts with, and how many of them it takes.
#[tactic(auto, unfolding(rules::specs::Cells::leaf_taken), using(crate::proofs::Leaves::narrow_bound))]
fn leaf_taken(leaf: Leaf, cs: &[u64]) -> Answer<(Halves, usize)>
    ensures { result ≡ halved (leaf_taken leaf 0 cs.now) }
{
    if leaf::is_wide(leaf) {
        return two_cells(cs);
    }
    one_cell(most(leaf), cs)
}

// A fixed integer or a float: its bytes, lowest first.
#[tactic(auto, unfolding(rules::specs::Wire::leaf_bytes), using(rules::proofs::Laws::Bytes::length_bytes))]
fn put_fixed(width: Width, value: Halves, out: &mut [u8], pos: usize) -> usize
    ensures answers { result ≡ length (leaf_bytes (Leaf.Fixed width) (whole value.low value.high)) }
    ensures writes { out.new ≡ sets out.old pos (leaf_bytes (Leaf.Fixed width) (whole value.low value.high)) }
{
    let n = compact::size(width) as usize;
    number::put_halves(out, pos, value, n);
    n
}

// The bytes of a leaf's value.
#[tactic(auto, unfolding(rules::specs::Wire::leaf_bytes))]
fn put_value(leaf: Leaf, value: Halves, out: &mut [u8], pos: usize) -> usize
    requires { whole value.low value.high < bound leaf }
    ensures answers { result ≡ length (leaf_bytes leaf (whole value.low value.high)) }
    ensures writes { out.new ≡ sets out.old pos (leaf_bytes leaf (whole value.low value.high)) }
{
    match leaf {
        Leaf::Unit => 0,
        Leaf::Bool | Leaf::OptionBool => put_fixed(Width::W1, value, out, pos),
        Leaf::Fixed(width) | Leaf::Float(width) => put_fixed(width, value, out, pos),
        Leaf::Compact(_) => compact_put::put(value, out, pos),
    }
}

// A scalar, a tag or a count whose cells cs starts with, its bytes from `pos` on: how many cells it took and how many bytes it has. The place of a refusal is
// counted from the first of these cells.
pub fn put_leaf(leaf: Leaf, cs: &[u64], out: &mut [u8], pos: usize) -> Answer<(usize, usize)>
    ensures { Puts pos (put_leaf leaf 0 cs.now) out.old out.new result }
{
    let (value, taken) = leaf_taken(leaf, cs)?;
    Ok((taken, put_value(leaf, value, out, pos)))
}

// The head of n bits that stand in cs, and their bytes: how many there are.
fn put_lanes(n: u64, cs: &[u64], out: &mut [u8], pos: usize) -> usize
    requires few { n ≤ max_bits }
    requires all_there { words64 n ≤ length cs.now }
    ensures answers { result ≡ length (bits_bytes (lanes 64 n (take (words64 n) cs.now))) }
    ensures writes { out.new ≡ sets out.old pos (bits_bytes (lanes 64 n (take (words64 n) cs.now))) }
{
    let head = compact_put::put(Halves::from(n), out, pos);
    // All cells are there, so it does write.
    bit_vec::write(n, cs, out, pos.saturating_add(head));
    head + (n as usize).div_ceil(8)
}

// The same for a bit vector: its count, 14, all its cells, the bits past n in the last one, and then its bytes.
pub fn put_bits(cs: &[u64], out: &mut [u8], pos: usize) -> Answer<(usize, usize)>
    ensures { Puts pos (put bits 0 cs.now) out.old out.new result }
{
    if cs.len() == 0 {
        return refuse(Reason::CellsShort, 0);
    }
    let n = cs[0];
    if rules::MAX_BITS < n {
        return refuse(Reason::BitCount, 0);
    }
    let words = (n as usize).div_ceil(64);
    let rest = &cs[1..];
    if rest.len() < words {
        return refuse(Reason::CellsShort, cs.len());
    }
    if !bit_vec::clear(n, rest) {
        return refuse(Reason::CellUnfit, words);
    }
    Ok((1 + words, put_lanes(n, rest, out, pos)))
}
