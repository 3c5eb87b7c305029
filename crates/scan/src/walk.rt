// The table-driven walkers: the item walker calls the walker of the node's kind and is called back, with the table index and the items left falling. A vector's
// items are a loop, so the stack depends on the table alone, whatever a message counts. The offset, the rest of the message as a part of the slice, the limits in one
// record by value and the lent cells are handed on side by side: the project is asked for these forms by name. `Walkable` speaks of what changes at each step, so a
// type for it would be made, and proved, at each call.
ghost use Rattle.rules.specs.Types.{option, result as result_type, pair, vector};
ghost use Rattle.rules.specs.Scan.Landing.{Lands};
ghost use Rattle.rules.specs.Scan.Pass.{pass_at, items};
ghost use Rattle.scan.specs.Walk.{Walkable, type_of};

use crate::bits::scan_bits;
use crate::plan::Plan;
use crate::single::scan_leaf;
use leaf::count_from;
use meter::Meter;
use rules::{Answer, Leaf, Node, Reason, Totals, refuse};

impl<'a> Plan<'a> {
    // The item that node `node` describes, at offset `at`, which is where s starts, inside `level` vectors.
    #[cycle(walk)]
    pub(crate) fn item(
        &self,
        node: usize,
        level: u32,
        at: usize,
        s: &[u8],
        m: Meter,
        cells: &mut [u64],
    ) -> Answer<(Totals, usize)>
        requires { Walkable self.now node at s.now m.limits m.totals }
        ensures { Lands (pass_at (type_of self.now node) m.limits level at s.now m.totals) cells.old m.totals result cells.new }
    {
        if self.checked.feet[node] == 0 {
            return m.pass_units(at, 1, self.units[node], cells);
        }
        match self.checked.node_at(node) {
            Node::Leaf(leaf) => scan_leaf(leaf, at, s, m, cells),
            Node::Option(a) => self.option(a, level, at, s, m, cells),
            Node::Result(a, b) => self.result(a, b, level, at, s, m, cells),
            Node::Pair(a, b) => self.pair(a, b, level, at, s, m, cells),
            Node::Array(n, a) => self.items(a, n as u64, level, at, s, m, cells),
            Node::Vector(a) => self.vector(a, level, at, s, m, cells),
            Node::Bits => scan_bits(level, at, s, m, cells),
            // No node of a checked table is unknown.
            Node::Unknown => refuse(Reason::TableNode, node),
        }
    }

    // An Option of node `a`: its tag, and behind tag 1 the item.
    #[cycle(walk)]
    fn option(
        &self,
        a: usize,
        level: u32,
        at: usize,
        s: &[u8],
        m: Meter,
        cells: &mut [u64],
    ) -> Answer<(Totals, usize)>
        requires { Walkable self.now a at s.now m.limits m.totals }
        ensures { Lands (pass_at (option (type_of self.now a)) m.limits level at s.now m.totals) cells.old m.totals result cells.new }
    {
        let (totals, end) = scan_leaf(Leaf::Bool, at, s, m, cells)?;
        if s[0] == 0 {
            return Ok((totals, end));
        }
        let next = Meter { totals, ..m };
        self.item(a, level, end, &s[end - at..], next, cells)
    }

    // A Result of nodes `a` and `b`: its tag, and behind it the item that the tag chooses.
    #[cycle(walk)]
    fn result(
        &self,
        a: usize,
        b: usize,
        level: u32,
        at: usize,
        s: &[u8],
        m: Meter,
        cells: &mut [u64],
    ) -> Answer<(Totals, usize)>
        requires first { Walkable self.now a at s.now m.limits m.totals }
        requires second { Walkable self.now b at s.now m.limits m.totals }
        ensures { Lands (pass_at (result_type (type_of self.now a) (type_of self.now b)) m.limits level at s.now m.totals) cells.old m.totals result cells.new }
    {
        let (totals, end) = scan_leaf(Leaf::Bool, at, s, m, cells)?;
        let chosen = if s[0] == 0 { a } else { b };
        let next = Meter { totals, ..m };
        self.item(chosen, level, end, &s[end - at..], next, cells)
    }

    // A pair: an item of node `a`, and behind it one of node `b`.
    #[cycle(walk)]
    fn pair(
        &self,
        a: usize,
        b: usize,
        level: u32,
        at: usize,
        s: &[u8],
        m: Meter,
        cells: &mut [u64],
    ) -> Answer<(Totals, usize)>
        requires first { Walkable self.now a at s.now m.limits m.totals }
        requires second { Walkable self.now b at s.now m.limits m.totals }
        ensures { Lands (pass_at (pair (type_of self.now a) (type_of self.now b)) m.limits level at s.now m.totals) cells.old m.totals result cells.new }
    {
        let (totals, end) = self.item(a, level, at, s, m, cells)?;
        let next = Meter { totals, ..m };
        self.item(b, level, end, &s[end - at..], next, cells)
    }

    // A vector of items of node `a`: its count, its limits, and then the items, one level deeper.
    #[cycle(walk)]
    fn vector(
        &self,
        a: usize,
        level: u32,
        at: usize,
        s: &[u8],
        m: Meter,
        cells: &mut [u64],
    ) -> Answer<(Totals, usize)>
        requires { Walkable self.now a at s.now m.limits m.totals }
        ensures { Lands (pass_at (vector (type_of self.now a)) m.limits level at s.now m.totals) cells.old m.totals result cells.new }
    {
        let (n, used) = count_from(at, s)?;
        let charge = n * self.checked.feet[a];
        let (totals, end) = m.enter(level, at, at + used, n, charge, 0, cells)?;
        let next = Meter { totals, ..m };
        self.items(a, n, level + 1, end, &s[used..], next, cells)
    }

    // `count` items of node `node`, one after another.
    #[cycle(walk)]
    fn items(
        &self,
        node: usize,
        count: u64,
        level: u32,
        at: usize,
        s: &[u8],
        m: Meter,
        cells: &mut [u64],
    ) -> Answer<(Totals, usize)>
        requires { Walkable self.now node at s.now m.limits m.totals }
        ensures { Lands (items count (pass_at (type_of self.now node) m.limits level) at s.now m.totals) cells.old m.totals result cells.new }
    {
        if self.checked.feet[node] == 0 {
            return m.pass_units(at, count, self.units[node], cells);
        }
        // Where an item starts is known once the one before it has been walked, so no iterator hands out the rest.
        let mut rest = s;
        let mut end = at;
        let mut totals = m.totals;
        for _ in 0..count {
            let next = Meter { totals, ..m };
            let (t, e) = self.item(node, level, end, rest, next, cells)?;
            rest = &rest[e - end..];
            end = e;
            totals = t;
        }
        Ok((totals, end))
    }
}
