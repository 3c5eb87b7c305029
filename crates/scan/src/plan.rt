// The plan of a walk.
ghost use Rattle.std.specs.Prelude.{◌≡◌};
ghost use Rattle.rules.specs.Table.{numbers_of, unit_code};

use table::Checked;

// What a message is walked by: a checked table, and the units of its nodes. Work is bounded by bytes and cells: items without bytes are counted and not walked.
// The places are 64, as many as a table may have nodes, since nothing here allocates.
#[derive(Drop)]
pub(crate) struct Plan<'a> {
    pub(crate) checked: Checked<'a>,
    pub(crate) units: [u64; 64],
    pub(crate) ghost unitary: { units ≡ numbers_of unit_code checked.table.now },
}
