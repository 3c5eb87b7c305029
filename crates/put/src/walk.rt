// The writing walkers, over the cells as reading goes over bytes: the item writer calls the writer of the node's kind and is called back, with the table index
// and the items left falling. Each item takes a cell or is refused, so work is bounded by the cells given, whatever a count says. How far the cells and the output
// have been reached stands beside them, and in an answer: a record of both, lent on, would have to say on each refusal too how far it is.
// `Puttable` speaks of what changes at each step, so a type for it would be made, and proved, at each call.
ghost use Rattle.rules.specs.Put.{put};
ghost use Rattle.rules.specs.Table.{ty_at};
ghost use Rattle.rules.specs.Types.{array, option, result as result_type, pair, vector};
ghost use Rattle.put.specs.Written.{Puttable, PutsAt};

use crate::single::{put_bits, put_leaf};
use rules::{Answer, Leaf, Node, Reason, Width, refuse};
use table::Checked;

// The item that node `node` of the table describes, whose cells start at index `at`, which is where cs starts, with its bytes from `pos` on.
#[cycle(walk)]
pub(crate) fn put_item(
    checked: &Checked,
    node: usize,
    at: usize,
    cs: &[u64],
    out: &mut [u8],
    pos: usize,
) -> Answer<(usize, usize)>
    requires { Puttable checked.now.table.now node at cs.now pos }
    ensures { PutsAt at pos (put (ty_at checked.now.table.now node) at cs.now) out.old out.new result }
{
    match checked.node_at(node) {
        Node::Leaf(leaf) => put_leaf(leaf, at, cs, out, pos),
        Node::Option(a) => put_option(checked, a, at, cs, out, pos),
        Node::Result(a, b) => put_result(checked, a, b, at, cs, out, pos),
        Node::Pair(a, b) => put_pair(checked, a, b, at, cs, out, pos),
        Node::Array(n, a) => put_items(checked, a, n as u64, at, cs, out, pos),
        Node::Vector(a) => put_vector(checked, a, at, cs, out, pos),
        Node::Bits => put_bits(at, cs, out, pos),
        // No node of a checked table is unknown.
        Node::Unknown => refuse(Reason::TableNode, node),
    }
}

// An Option of node `a`: its tag, and behind tag 1 the item.
#[cycle(walk)]
fn put_option(
    checked: &Checked,
    a: usize,
    at: usize,
    cs: &[u64],
    out: &mut [u8],
    pos: usize,
) -> Answer<(usize, usize)>
    requires { Puttable checked.now.table.now a at cs.now pos }
    ensures { PutsAt at pos (put (option (ty_at checked.now.table.now a)) at cs.now) out.old out.new result }
{
    let (next, end) = put_leaf(Leaf::Bool, at, cs, out, pos)?;
    if cs[0] == 0 {
        return Ok((next, end));
    }
    put_item(checked, a, next, &cs[next - at..], out, end)
}

// A Result of nodes `a` and `b`: its tag, and behind it the item that the tag chooses.
#[cycle(walk)]
fn put_result(
    checked: &Checked,
    a: usize,
    b: usize,
    at: usize,
    cs: &[u64],
    out: &mut [u8],
    pos: usize,
) -> Answer<(usize, usize)>
    requires first { Puttable checked.now.table.now a at cs.now pos }
    requires second { Puttable checked.now.table.now b at cs.now pos }
    ensures { PutsAt at pos (put (result_type (ty_at checked.now.table.now a) (ty_at checked.now.table.now b)) at cs.now) out.old out.new result }
{
    let (next, end) = put_leaf(Leaf::Bool, at, cs, out, pos)?;
    let chosen = if cs[0] == 0 { a } else { b };
    put_item(checked, chosen, next, &cs[next - at..], out, end)
}

// A pair: an item of node `a`, and behind it one of node `b`.
#[cycle(walk)]
fn put_pair(
    checked: &Checked,
    a: usize,
    b: usize,
    at: usize,
    cs: &[u64],
    out: &mut [u8],
    pos: usize,
) -> Answer<(usize, usize)>
    requires first { Puttable checked.now.table.now a at cs.now pos }
    requires second { Puttable checked.now.table.now b at cs.now pos }
    ensures { PutsAt at pos (put (pair (ty_at checked.now.table.now a) (ty_at checked.now.table.now b)) at cs.now) out.old out.new result }
{
    let (next, end) = put_item(checked, a, at, cs, out, pos)?;
    put_item(checked, b, next, &cs[next - at..], out, end)
}

// A vector of items of node `a`: its count, and behind it the items.
#[cycle(walk)]
fn put_vector(
    checked: &Checked,
    a: usize,
    at: usize,
    cs: &[u64],
    out: &mut [u8],
    pos: usize,
) -> Answer<(usize, usize)>
    requires { Puttable checked.now.table.now a at cs.now pos }
    ensures { PutsAt at pos (put (vector (ty_at checked.now.table.now a)) at cs.now) out.old out.new result }
{
    let (next, end) = put_leaf(Leaf::Compact(Width::W4), at, cs, out, pos)?;
    put_items(checked, a, cs[0], next, &cs[next - at..], out, end)
}

// `count` items of node `node`, one after another.
#[cycle(walk)]
pub(crate) fn put_items(
    checked: &Checked,
    node: usize,
    count: u64,
    at: usize,
    cs: &[u64],
    out: &mut [u8],
    pos: usize,
) -> Answer<(usize, usize)>
    requires { Puttable checked.now.table.now node at cs.now pos }
    ensures { PutsAt at pos (put (array count (ty_at checked.now.table.now node)) at cs.now) out.old out.new result }
{
    // Where an item starts is known once the one before it is put, so no iterator hands out the cells.
    let mut rest = cs;
    let mut next = at;
    let mut end = pos;
    for _ in 0..count {
        let (c, e) = put_item(checked, node, next, rest, out, end)?;
        rest = &rest[c - next..];
        next = c;
        end = e;
    }
    Ok((next, end))
}
