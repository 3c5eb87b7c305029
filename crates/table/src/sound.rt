// A table that passed its check.
ghost use Rattle.std.specs.Prelude.{◌≡◌, ◌-◌, ◌≤◌, ◌<◌};
ghost use Rattle.rules.specs.Table.{check_table, fine, numbers_of, count, node_in};
ghost use Rattle.rules.specs.Totals.{foot};

use rules::Node;

// The table, and the footprint of each node: 0 past the last one. The places are 64, as many as a table may have nodes, since nothing here allocates.
#[derive(Clone, Copy)]
pub struct Checked<'a> {
    pub table: &'a [u8],
    pub feet: [u64; 64],
    pub ghost fine: { check_table table.now ≡ fine },
    pub ghost footing: { feet ≡ numbers_of foot table.now },
}

impl<'a> Checked<'a> {
    // How many nodes there are.
    pub fn count(&self) -> usize
        ensures counted { result ≡ count self.now.table.now }
        ensures some { 1 ≤ result }
        ensures few { result ≤ 64 }
    {
        self.table[5] as usize
    }

    // The index of the root, which is the last node.
    pub fn root(&self) -> usize
        ensures last { result ≡ count self.now.table.now - 1 }
        ensures few { result < 64 }
    {
        self.count() - 1
    }

    // Node `i`, or Unknown where the table is too short to have it.
    pub fn node_at(&self, i: usize) -> Node
        ensures { result ≡ node_in self.now.table.now i }
    {
        node::node_at(self.table, i)
    }
}
