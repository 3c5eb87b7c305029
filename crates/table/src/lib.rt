// The check of a type table, and with it the footprint of each node.
#![tactic(auto)]

ghost use Rattle.std.specs.Prelude.{◌≡◌, Err, MatchResult, ◌≤◌, ◌^◌, length, get_or};
ghost use Rattle.rules.specs.Basics.{Under};
ghost use Rattle.rules.specs.Totals.{leaf_foot};
ghost use Rattle.rules.specs.Table.{marked, sized, fine, head_check, allowed, check_table, footprints_of};
ghost use Rattle.table.specs.Nodes.{foot_over};

mod sound;

use rules::{Answer, Leaf, Node, Reason, refuse};
pub use sound::Checked;

// ---- the check

// Is the table marked `W T D`, version 1?
fn is_marked(table: &[u8]) -> bool
    requires { 6 ≤ length table.now }
    ensures { result ≡ marked table.now }
{
    table[..5] == b"WTD\x01\x00"[..]
}

// Does the table have 1 to 64 nodes, and the length that their count says?
fn is_sized(table: &[u8]) -> bool
    requires { 6 ≤ length table.now }
    ensures { result ≡ sized table.now }
{
    let n = table[5] as usize;
    if n < 1 || 64 < n {
        return false;
    }
    table.len() == 6 + 4 * n
}

// Checks what stands before the nodes, and the length.
#[tactic(auto, unfolding(rules::specs::Table::head_check))]
fn check_head(table: &[u8]) -> Answer<()>
    ensures { result ≡ head_check table.now }
{
    if table.len() < 6 {
        return refuse(Reason::TableMark, 0);
    }
    if !is_marked(table) {
        return refuse(Reason::TableMark, 0);
    }
    if !is_sized(table) {
        return refuse(Reason::TableSize, 0);
    }
    Ok(())
}

// Is the node of a known kind, with its children below `i`?
#[tactic(auto, unfolding(rules::specs::Table::allowed))]
fn allowed_at(i: usize, node: Node) -> bool
    ensures { result ≡ allowed i node }
{
    match node {
        Node::Leaf(_) => true,
        Node::Option(a) => a < i,
        Node::Result(a, b) => a < i && b < i,
        Node::Pair(a, b) => a < i && b < i,
        Node::Array(_, a) => a < i,
        Node::Vector(a) => a < i,
        Node::Bits => true,
        Node::Unknown => false,
    }
}

// ---- footprints

// A vector or bit vector has this footprint, whatever its items.
const VECTOR_FOOTPRINT: u64 = 24;

// What stands at place `i`, or `past` beyond the last one, so that no caller owes that a child's index is small.
pub fn found_at<T: Copy>(found: &[T], i: usize, past: T) -> T
    ensures { result ≡ get_or found.now i past }
{
    if i < found.len() { found[i] } else { past }
}

// The footprint of a leaf.
#[tactic(auto)]
fn leaf_footprint(leaf: Leaf) -> u64
    ensures { result ≡ leaf_foot leaf }
{
    match leaf {
        Leaf::Unit => 0,
        Leaf::Bool => 1,
        Leaf::OptionBool => 1,
        Leaf::Fixed(width) => compact::size(width) as u64,
        Leaf::Compact(width) => compact::size(width) as u64,
        Leaf::Float(width) => compact::size(width) as u64,
    }
}

// The footprint of a node, from those of its children, which stand in `feet`.
#[tactic(auto, using(crate::specs::Laws::product_fits), unfolding(crate::specs::Nodes::foot_over))]
fn footprint_of(node: Node, feet: &[u64]) -> u64
    requires { Under (2 ^ 31) feet.now }
    ensures { result ≡ foot_over (λ j. get_or feet.now j 0) node }
{
    match node {
        Node::Leaf(leaf) => leaf_footprint(leaf),
        Node::Option(a) => 1 + found_at(feet, a, 0),
        Node::Result(a, b) => 1 + (found_at(feet, a, 0) + found_at(feet, b, 0)),
        Node::Pair(a, b) => found_at(feet, a, 0) + found_at(feet, b, 0),
        Node::Array(n, a) => n as u64 * found_at(feet, a, 0),
        Node::Vector(_) => VECTOR_FOOTPRINT,
        Node::Bits => VECTOR_FOOTPRINT,
        Node::Unknown => 0,
    }
}

// Checks the nodes, rising, and finds the footprint of each from those before it.
fn weigh(table: &[u8]) -> Answer<[u64; 64]>
    requires { head_check table.now ≡ fine }
    ensures { result ≡ footprints_of table.now }
{
    let mut feet = [0u64; 64];
    for i in 0..table[5] as usize {
        let node = node::node_at(table, i);
        if !allowed_at(i, node) {
            return refuse(Reason::TableNode, i);
        }
        let foot = footprint_of(node, &feet);
        if rules::MAX_FOOTPRINT < foot {
            return refuse(Reason::TableFootprint, i);
        }
        feet[i] = foot;
    }
    Ok(feet)
}

// The check of a table, which finds the footprint of each node: 0 past the last one.
pub fn footprints(table: &[u8]) -> Answer<[u64; 64]>
    ensures { result ≡ footprints_of table.now }
{
    check_head(table)?;
    weigh(table)
}

// The check of a table: what stands before the nodes, then the nodes, rising.
pub fn check(table: &[u8]) -> Answer<()>
    ensures { result ≡ check_table table.now }
{
    footprints(table)?;
    Ok(())
}

// The table with its footprints, if its check refuses nothing.
pub fn checked(table: &[u8]) -> Answer<Checked<'_>>
    ensures { MatchResult result (λ c. c.table.now ≡ table.now) (λ y. check_table table.now ≡ Err y) }
{
    let feet = footprints(table)?;
    Ok(Checked { table, feet })
}
