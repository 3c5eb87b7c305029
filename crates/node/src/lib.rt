// A node of a type table, as an enum: what its four bytes say.
#![tactic(auto)]

ghost use Rattle.std.specs.Prelude.{◌≡◌, ◌+◌, ◌*◌};
ghost use Rattle.rules.specs.Table.{unused as if_unused, float_node, node_of, node_in};
ghost use Rattle.node.specs.Nodes.{width_named, leaf_named};

use rules::{Leaf, Node, Width};

// A 16-bit number, little-endian.
fn word(low: u8, high: u8) -> u16
    ensures { result ≡ low + 256 * high }
{
    u16::from_le_bytes([low, high])
}

// The width of `a` bytes, if there is one. (`TryFrom` would need an error that says no more than None.)
#[tactic(auto, unfolding(crate::specs::Nodes::width_named))]
pub fn width_of(a: usize) -> Option<Width>
    ensures { result ≡ width_named a }
{
    match a {
        1 => Some(Width::W1),
        2 => Some(Width::W2),
        4 => Some(Width::W4),
        8 => Some(Width::W8),
        16 => Some(Width::W16),
        _ => None,
    }
}

// The node of a leaf, if there is one: its width may name none.
fn leaf_of(leaf: Option<Leaf>) -> Node
    ensures { result ≡ leaf_named leaf }
{
    match leaf {
        Some(leaf) => Node::Leaf(leaf),
        None => Node::Unknown,
    }
}

// Kind 5: a float of `a` bytes.
fn float_of(a: usize) -> Node
    ensures { result ≡ float_node a }
{
    match a {
        4 => Node::Leaf(Leaf::Float(Width::W4)),
        8 => Node::Leaf(Leaf::Float(Width::W8)),
        _ => Node::Unknown,
    }
}

// Kind 9: an array of `n` items of node `a`, at least one.
#[tactic(auto, unfolding(rules::specs::Table::node_of))]
fn array_of(n: u16, a: usize) -> Node
    ensures { result ≡ node_of 9 a n }
{
    if n == 0 {
        Node::Unknown
    } else {
        Node::Array(n, a)
    }
}

// The node, if a number that its kind does not use is 0.
fn unused(number: usize, node: Node) -> Node
    ensures { result ≡ if_unused number node }
{
    if number == 0 { node } else { Node::Unknown }
}

// What a kind says with its a and b.
#[tactic(auto, unfolding(rules::specs::Table::node_of))]
fn node_of(kind: u8, a: usize, n: u16) -> Node
    ensures { result ≡ node_of kind a n }
{
    let b = n as usize;
    match kind {
        0 => unused(a, unused(b, Node::Leaf(Leaf::Unit))),
        1 => unused(a, unused(b, Node::Leaf(Leaf::Bool))),
        2 => unused(a, unused(b, Node::Leaf(Leaf::OptionBool))),
        3 => unused(b, leaf_of(width_of(a).map(Leaf::Fixed))),
        4 => unused(b, leaf_of(width_of(a).map(Leaf::Compact))),
        5 => unused(b, float_of(a)),
        6 => unused(b, Node::Option(a)),
        7 => Node::Result(a, b),
        8 => Node::Pair(a, b),
        9 => array_of(n, a),
        10 => unused(b, Node::Vector(a)),
        11 => unused(a, unused(b, Node::Bits)),
        _ => Node::Unknown,
    }
}

// Node `i` of the table, or Unknown where the table is too short to have it.
pub fn node_at(table: &[u8], i: usize) -> Node
    ensures { result ≡ node_in table.now i }
{
    // Its four bytes start at 6 + 4 * i, which could wrap: so the test goes by a division.
    if table.len() < 10 {
        return Node::Unknown;
    }
    if (table.len() - 10) / 4 < i {
        return Node::Unknown;
    }
    let at = 6 + 4 * i;
    let a = table[at + 1] as usize;
    let b = word(table[at + 2], table[at + 3]);
    node_of(table[at], a, b)
}
