// Scalars and counts at the front of a message: a leaf's value in two halves. Floats and signed integers are their bits, and no bit of them is looked at.
// The offset `at`, beside the bytes that start there, is looked at for the place of a refusal alone.
#![tactic(auto)]

ghost use Rattle.std.specs.Prelude.{◌≡◌};
ghost use Rattle.rules.specs.Cells.{wide};
ghost use Rattle.rules.specs.Types.{size};
ghost use Rattle.rules.specs.Wire.{byte_from, number_from, leaf_from};
ghost use Rattle.leaf.specs.Taken.{halved, count_of};

use rules::{Answer, Halves, Leaf, Reason, Width, refuse};

// A byte below m.
fn byte_from(m: u8, at: usize, s: &[u8]) -> Answer<(Halves, usize)>
    ensures { result ≡ halved (byte_from m at s.now) }
{
    if s.len() == 0 {
        return refuse(Reason::Short, at);
    }
    if m <= s[0] {
        return refuse(Reason::Tag, at);
    }
    Ok((Halves::from(s[0] as u64), 1))
}

// A fixed integer or a float.
fn number_from(width: Width, at: usize, s: &[u8]) -> Answer<(Halves, usize)>
    ensures { result ≡ halved (number_from (size width) at s.now) }
{
    let n = compact::size(width) as usize;
    if s.len() < n {
        return refuse(Reason::Short, at);
    }
    Ok((number::halves(s, n), n))
}

// (By `map_err` the refusal would be built by hand, in a closure.)
fn compact_from(width: Width, at: usize, s: &[u8]) -> Answer<(Halves, usize)>
    ensures { result ≡ halved (leaf_from (Leaf.Compact width) at s.now) }
{
    match compact::read(s, width) {
        Ok(read) => Ok(read),
        Err(fault) => refuse(Reason::from(fault), at),
    }
}

// A leaf at offset `at`, which is where s starts: its value, with the bytes that it took.
#[tactic(auto, unfolding(crate::specs::Taken::halved, rules::specs::Wire::leaf_from))]
pub fn leaf_from(leaf: Leaf, at: usize, s: &[u8]) -> Answer<(Halves, usize)>
    ensures { result ≡ halved (leaf_from leaf at s.now) }
{
    match leaf {
        Leaf::Unit => Ok((Halves::from(0), 0)),
        Leaf::Bool => byte_from(2, at, s),
        Leaf::OptionBool => byte_from(3, at, s),
        Leaf::Fixed(width) => number_from(width, at, s),
        Leaf::Compact(width) => compact_from(width, at, s),
        Leaf::Float(width) => number_from(width, at, s),
    }
}

// Whether a leaf's value takes two cells.
pub fn is_wide(leaf: Leaf) -> bool
    ensures { result ≡ wide leaf }
{
    matches!(
        leaf,
        Leaf::Fixed(Width::W16) | Leaf::Compact(Width::W16) | Leaf::Float(Width::W16)
    )
}

// The count of a vector or of bits, which is a compact u32, with the bytes of its head.
pub fn count_from(at: usize, s: &[u8]) -> Answer<(u64, usize)>
    ensures { result ≡ count_of (leaf_from (Leaf.Compact Width.W4) at s.now) }
{
    let (n, used) = compact_from(Width::W4, at, s)?;
    Ok((n.low, used))
}
