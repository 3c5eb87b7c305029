// What is found from all nodes of a checked table: the longest length of its root, and the units of its nodes.
#![tactic(auto)]

ghost use Rattle.std.specs.Prelude.{◌≡◌, ◌+◌, ◌-◌, ◌*◌, ◌≤◌, Some, eqb, get_or};
ghost use Rattle.rules.specs.Basics.{pick};
ghost use Rattle.rules.specs.Totals.{leaf_longest, join, foot, longest as longest_length};
ghost use Rattle.rules.specs.Table.{check_table, fine, numbers_of, unit_code, units_of, longest_of, root};
ghost use Rattle.totals.specs.Nodes.{longest_over, Short, behind_tag, kept, units_over};

use rules::{Answer, Leaf, Node};
use table::{Checked, found_at};

// ---- longest lengths

// The longest length of a leaf.
fn leaf_longest(leaf: Leaf) -> u64
    ensures { result ≡ leaf_longest leaf }
{
    match leaf {
        Leaf::Unit => 0,
        Leaf::Bool => 1,
        Leaf::OptionBool => 1,
        Leaf::Fixed(width) => compact::size(width) as u64,
        Leaf::Compact(width) => compact_put::longest(width) as u64,
        Leaf::Float(width) => compact::size(width) as u64,
    }
}

// A tag and the longer of two, where both have a longest length.
fn tagged(x: Option<u32>, y: Option<u32>) -> Option<u64>
    ensures { result ≡ join behind_tag x y }
{
    Some(1 + x?.max(y?) as u64)
}

// One after the other, where both have a longest length.
fn sum(x: Option<u32>, y: Option<u32>) -> Option<u64>
    ensures { result ≡ join ◌+◌ x y }
{
    Some(x? as u64 + y? as u64)
}

// `n` times the same, if it has a longest length.
fn times(n: u16, x: Option<u32>) -> Option<u64>
    ensures { result ≡ join ◌*◌ (Some n) x }
{
    Some(n as u64 * x? as u64)
}

// The longest length of a node, from those of its children, which stand in `lengths`.
#[tactic(auto, unfolding(crate::specs::Nodes::longest_over))]
fn longest_of(node: Node, lengths: &[Option<u32>]) -> Option<u64>
    ensures { result ≡ longest_over (λ j. get_or lengths.now j None) node }
{
    match node {
        Node::Leaf(leaf) => Some(leaf_longest(leaf)),
        Node::Option(a) => tagged(Some(0), found_at(lengths, a, None)),
        Node::Result(a, b) => tagged(found_at(lengths, a, None), found_at(lengths, b, None)),
        Node::Pair(a, b) => sum(found_at(lengths, a, None), found_at(lengths, b, None)),
        Node::Array(n, a) => times(n, found_at(lengths, a, None)),
        Node::Vector(_) => None,
        Node::Bits => None,
        Node::Unknown => Some(0),
    }
}

// A longest length in 32 bits, where all of a checked table fit.
fn narrow(length: Option<u64>) -> Option<u32>
    requires { Short length }
    ensures { result ≡ length }
{
    Some(length? as u32)
}

// The same in 64 bits. (Where it was `map(u64::from)`, the equation that the callers' contracts need did not close.)
fn widen(length: Option<u32>) -> Option<u64>
    ensures { result ≡ length }
{
    Some(length? as u64)
}

// The root's longest length: the nodes rising, so that each node's children come before it.
fn measure(checked: &Checked) -> Option<u32>
    ensures { result ≡ longest_length (root checked.now.table.now) }
{
    let mut lengths = [None; 64];
    for i in 0..checked.count() {
        lengths[i] = narrow(longest_of(checked.node_at(i), &lengths));
    }
    lengths[checked.root()]
}

// The longest length of the table's root, if it has one.
pub fn longest(table: &[u8]) -> Answer<Option<u64>>
    ensures { result ≡ longest_of table.now }
{
    let checked = table::checked(table)?;
    Ok(widen(measure(&checked)))
}

// ---- units

// The units of a pair past its first, from those of its children.
fn pair_units(x: u64, y: u64) -> u64
    ensures { result ≡ kept (x + y + 1) }
{
    x.saturating_add(y).saturating_add(1)
}

// The units of an array past its first, from those of an item.
fn array_units(n: u16, x: u64) -> u64
    ensures { result ≡ kept (n * x + (n - 1)) }
{
    (n as u64)
        .saturating_mul(x)
        .saturating_add((n as u64).saturating_sub(1))
}

// The units of a node past its first, if its footprint is 0, from those of its children, which stand in `units`.
#[tactic(auto, unfolding(crate::specs::Nodes::units_over))]
fn units_of(foot: u64, node: Node, units: &[u64]) -> u64
    ensures { result ≡ pick (eqb foot 0) (units_over (λ j. get_or units.now j 0) node) 0 }
{
    if foot != 0 {
        return 0;
    }
    match node {
        Node::Pair(a, b) => pair_units(found_at(units, a, 0), found_at(units, b, 0)),
        Node::Array(n, a) => array_units(n, found_at(units, a, 0)),
        Node::Leaf(_) => 0,
        Node::Option(_) => 0,
        Node::Result(_, _) => 0,
        Node::Vector(_) => 0,
        Node::Bits => 0,
        Node::Unknown => 0,
    }
}

// For each node of footprint 0 one less than the number of its cells, or the largest number where that is larger; 0 for other nodes.
pub fn count_units(checked: &Checked) -> [u64; 64]
    ensures { result ≡ numbers_of unit_code checked.now.table.now }
{
    let mut units = [0u64; 64];
    for i in 0..checked.count() {
        units[i] = units_of(checked.feet[i], checked.node_at(i), &units);
    }
    units
}

// The same, and 0 for all nodes of a refused table.
pub fn units(table: &[u8]) -> [u64; 64]
    ensures { result ≡ units_of table.now }
{
    match table::checked(table) {
        Ok(checked) => count_units(&checked),
        Err(_) => [0u64; 64],
    }
}
